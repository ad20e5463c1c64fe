//! Splitting a line into words (protocol.txt, Protocol).
ghost use Rattle.std.specs.Prelude.{◌≡◌, ◌+◌, ◌<◌, ◌≤◌, false, length, take, drop};
ghost use Rattle.std.specs.Iterator.{YieldsFirstRef, item_count};
ghost use Rattle.std.specs.List.{position, list_any};
ghost use Rattle.mc_wire.specs.Words.{words_of, words_left, is_space};
ghost use Rattle.mc_wire.specs.internal.Steps.{with_word};

/// Number of bytes that are tested for a space at once. See docs/DECISIONS.md, F14.
const RUN: usize = 16;

/// Iterator over the words of a text.
#[derive(Drop)]
pub struct WordWalk<'a> {
    rest: &'a [u8],
}

/// Iterates over the words of a text: its maximal runs of bytes other than the space. Tabs and `\r`
/// are ordinary bytes of a word. Allocates nothing.
pub fn words(text: &[u8]) -> WordWalk<'_>
    ensures { words_left result ≡ words_of text.now }
{
    WordWalk { rest: text }
}

impl<'a> WordWalk<'a> {
    /// The remaining text, which the iterator hasn't returned yet.
    pub fn text(&self) -> &'a [u8]
        ensures { words_of result.now ≡ words_left self.now }
    {
        self.rest
    }
}

impl<'a> Iterator for WordWalk<'a> {
    type Item = &'a [u8];

    ghost next_gives = { YieldsFirstRef words_left };

    ghost remaining = { item_count words_left };

    #[tactic(auto, unfolding(crate::specs::Words::words_of))]
    #[inline(always)]
    fn next(&mut self) -> Option<&'a [u8]> {
        while !self.rest.is_empty() {
            let (word, rest) = cut_at_space(self.rest);
            self.rest = rest;
            if !word.is_empty() {
                return Some(word);
            }
        }
        None
    }
}

/// Splits the text at the first space, which is dropped. Without a space, the second part is empty.
fn cut_at_space(text: &[u8]) -> (&[u8], &[u8])
    ensures words { words_of text.now ≡ with_word result.0.now (words_of result.1.now) }
    ensures shorter { 0 < length text.now → length result.1.now < length text.now }
{
    match first_space(text) {
        Some(at) => (&text[..at], &text[at + 1..]),
        None => (text, &[]),
    }
}

/// The index of the first space. Runs of 16 bytes without a space are skipped first; the rest is
/// scanned bytewise.
fn first_space(text: &[u8]) -> Option<usize>
    ensures { result ≡ position is_space text.now }
{
    let passed = front_without_space(text);
    match first_space_plain(text.split_at(passed).1) {
        Some(at) => Some(passed + at),
        None => None,
    }
}

/// The index of the first space, by a bytewise scan.
fn first_space_plain(text: &[u8]) -> Option<usize>
    ensures { result ≡ position is_space text.now }
{
    text.iter().position(|byte| *byte == b' ')
}

/// Number of bytes at the front, in runs of 16, that contain no space and need no bytewise scan.
fn front_without_space(text: &[u8]) -> usize
    ensures within { result ≤ length text.now }
    ensures none { list_any is_space (take result text.now) ≡ false }
{
    let mut passed = 0;
    while text.len() - passed >= RUN && !has_space(text, passed) {
        passed += RUN;
    }
    passed
}

/// Whether a space is among the 16 bytes from index `from` on. The scan has no early exit, so that
/// it is vectorized.
fn has_space(text: &[u8], from: usize) -> bool
    requires { from + RUN ≤ length text.now }
    ensures { result ≡ list_any is_space (take RUN (drop from text.now)) }
{
    let mut found = false;
    for i in 0..RUN {
        found |= text[from + i] == b' ';
    }
    found
}
