//! Replies of the meta commands (protocol.txt, "Meta Commands").
ghost use Rattle.std.specs.Prelude.{◌≡◌, ◌≤◌, ◌∷◌, ◌++◌, [], codes, decimal, length};
ghost use Rattle.std.specs.List.{concat};
ghost use Rattle.mc_item.specs.declared.answer.Answer.TheVariants as answers;
ghost use Rattle.mc_command.specs.declared.meta.MetaKind.{MetaKind};
ghost use Rattle.mc_wire.specs.Sink.{Writes};
ghost use Rattle.mc_reply.specs.Text.{meta_text, coded_text, failed_flag, failed_text, head_text, told, flags_text, flag_text, item_flag, key_flag, left_flag};
ghost use Rattle.mc_reply.specs.Text as spec;

use crate::block::put_block;
use crate::classic::put_line;
use crate::header::{SHORT_HEADER, SHORT_VALUE, place_hit, sized};
use itoa::Buffer;
use mc_command::{MetaFlags, MetaKind, Profile, ReturnFlag};
use mc_item::{Answer, Marks, MetaDone, MetaHit};
use mc_wire::{BASE64_LIMIT, Key, Sink, SinkError, put_parts, write_all};

/// Buffer size for `VA` and the size of a value.
const SIZE_LIMIT: usize = 48;

/// Writes the reply of a meta command; nothing if `q` hides it. With `lenient`, too large counts as
/// not stored.
pub fn put_meta<O: Sink>(
    out: &mut O,
    kind: MetaKind,
    flags: &MetaFlags,
    value: bool,
    key: &Option<Key>,
    lenient: bool,
    answer: &Answer,
) -> Result<(), SinkError>
    ensures { Writes (meta_text kind flags.now value key.now lenient answer.now) result
        (O.sight out.old) (O.sight out.new) }
{
    if flags.quiet && is_hidden(kind, value, answer) {
        return write_all(out, b"");
    }
    put_coded(out, kind, flags, value, key, lenient, answer)
}

/// Whether `q` hides the reply (protocol.txt, "noreply semantics for return codes").
pub fn is_hidden(kind: MetaKind, value: bool, answer: &Answer) -> bool
    ensures { result ≡ spec.is_hidden kind value answer.now }
{
    match kind {
        MetaKind::Get => matches!(answer, Answer::Miss),
        MetaKind::Set => matches!(answer, Answer::MetaDone(_)),
        MetaKind::Delete => { matches!(answer, Answer::Deleted | Answer::Done | Answer::NotFound) }
        MetaKind::Arithmetic => match answer {
            Answer::MetaDone(_) => !value,
            answer => matches!(answer, Answer::NotFound),
        },
    }
}

fn put_coded<O: Sink>(
    out: &mut O,
    kind: MetaKind,
    flags: &MetaFlags,
    value: bool,
    key: &Option<Key>,
    lenient: bool,
    answer: &Answer,
) -> Result<(), SinkError>
    ensures { Writes (coded_text kind flags.now key.now (told answer.now lenient) value) result
        (O.sight out.old) (O.sight out.new) }
{
    match answer {
        Answer::MetaHit(hit) => put_found(out, flags, value, key, answer, hit),
        Answer::MetaDone(done) => put_done(out, flags, value, key, answer, done),
        Answer::Deleted => put_head(out, b"HD", flags, key, answer, b"\r\n"),
        Answer::Done => put_head(out, b"HD", flags, key, answer, b"\r\n"),
        Answer::Miss => put_head(out, b"EN", flags, key, answer, b"\r\n"),
        Answer::TooLarge if lenient => put_failed(out, b"NS", kind, flags, key, &Answer::NotStored),
        Answer::NotStored => put_failed(out, b"NS", kind, flags, key, answer),
        Answer::Exists => put_failed(out, b"EX", kind, flags, key, answer),
        Answer::NotFound => put_failed(out, b"NF", kind, flags, key, answer),
        Answer::Stored
        | Answer::TooLarge
        | Answer::NoCas
        | Answer::NoMemory
        | Answer::Hit { .. }
        | Answer::Number(_)
        | Answer::NonNumeric
        | Answer::Touched
        | Answer::Stats(_)
        | Answer::Reset => put_line(out, answer),
    }
}

/// Writes the reply of a hit of `mg`.
fn put_found<O: Sink>(
    out: &mut O,
    flags: &MetaFlags,
    value: bool,
    key: &Option<Key>,
    answer: &Answer,
    hit: &MetaHit,
) -> Result<(), SinkError>
    requires { answer.now ≡ answers.MetaHit hit.now }
    ensures { (kind : MetaKind) →
        Writes (coded_text kind flags.now key.now answer.now value) result (O.sight out.old)
        (O.sight out.new) }
{
    let end = marks_line(flags.profile, hit.marks);
    if !value {
        return put_head(out, b"HD", flags, key, answer, end);
    }
    if hit.value.len() <= SHORT_VALUE && flags.returned.flags().is_empty() {
        let mut room = [0; SHORT_HEADER];
        let end = place_hit(&mut room, end, hit.value.bytes());
        return write_all(out, room.split_at(end).0);
    }
    put_size(out, hit.value.len(), flags, key, answer)?;
    put_block(out, end, &hit.value)
}

/// Writes the reply to a successful `ms` or `ma`, with the number if `v` asks for it.
fn put_done<O: Sink>(
    out: &mut O,
    flags: &MetaFlags,
    value: bool,
    key: &Option<Key>,
    answer: &Answer,
    done: &MetaDone,
) -> Result<(), SinkError>
    requires { answer.now ≡ answers.MetaDone done.now }
    ensures { (kind : MetaKind) →
        Writes (coded_text kind flags.now key.now answer.now value) result (O.sight out.old)
        (O.sight out.new) }
{
    if !value {
        return put_head(out, b"HD", flags, key, answer, b"\r\n");
    }
    let mut digits = Buffer::new();
    let number = digits.format(done.number).as_bytes();
    put_size(out, number.len(), flags, key, answer)?;
    put_parts(out, &[b"\r\n", number, b"\r\n"])
}

/// Writes a reply without a value: code, flags and line end.
fn put_head<O: Sink>(
    out: &mut O,
    code: &[u8],
    flags: &MetaFlags,
    key: &Option<Key>,
    answer: &Answer,
    end: &[u8],
) -> Result<(), SinkError>
    ensures { Writes (code.now ++ (flags_text flags.now key.now answer.now ++ end.now)) result
        (O.sight out.old) (O.sight out.new) }
{
    write_all(out, code)?;
    put_flags(out, flags, key, answer)?;
    write_all(out, end)
}

/// Writes the reply to a command that stored or changed nothing.
fn put_failed<O: Sink>(
    out: &mut O,
    code: &[u8],
    kind: MetaKind,
    flags: &MetaFlags,
    key: &Option<Key>,
    answer: &Answer,
) -> Result<(), SinkError>
    ensures { Writes (head_text code.now (failed_text kind flags.now key.now answer.now) []) result
        (O.sight out.old) (O.sight out.new) }
{
    write_all(out, code)?;
    put_failed_flags(out, kind, flags, key, answer)?;
    write_all(out, b"\r\n")
}

/// Writes the returned flags of a command that stored or changed nothing, in the order of the
/// request.
fn put_failed_flags<O: Sink>(
    out: &mut O,
    kind: MetaKind,
    flags: &MetaFlags,
    key: &Option<Key>,
    answer: &Answer,
) -> Result<(), SinkError>
    ensures { Writes (failed_text kind flags.now key.now answer.now) result (O.sight out.old)
        (O.sight out.new) }
{
    for flag in flags.returned.flags() {
        put_failed_flag(out, kind, flags, key, answer, *flag)?;
    }
    Ok(())
}

/// Writes one such flag. By memcached's rules, `ms` returns unique 0 for an item that it didn't
/// store.
fn put_failed_flag<O: Sink>(
    out: &mut O,
    kind: MetaKind,
    flags: &MetaFlags,
    key: &Option<Key>,
    answer: &Answer,
    flag: ReturnFlag,
) -> Result<(), SinkError>
    ensures { Writes
        (failed_flag kind flags.now.profile (flag_text flags.now key.now answer.now) flag) result
        (O.sight out.old) (O.sight out.new) }
{
    match (kind, flags.profile, flag) {
        (MetaKind::Set, Profile::DropIn, ReturnFlag::Unique) => write_all(out, b" c0"),
        _ => put_flag(out, flags, key, answer, flag),
    }
}

/// Writes the start of a reply with a value: size and flags.
fn put_size<O: Sink>(
    out: &mut O,
    size: usize,
    flags: &MetaFlags,
    key: &Option<Key>,
    answer: &Answer,
) -> Result<(), SinkError>
    ensures { Writes (codes "VA " ++ (decimal size ++ flags_text flags.now key.now answer.now))
        result (O.sight out.old) (O.sight out.new) }
{
    let mut room = [0; SIZE_LIMIT];
    write_all(out, sized(&mut room, size))?;
    put_flags(out, flags, key, answer)
}

/// The flags `W`, `X` and `Z` of a hit, in the order of the profile, and the line end.
pub fn marks_line(profile: Profile, marks: Marks) -> &'static [u8]
    ensures line { result.now ≡ spec.marks_text profile marks ++ codes "\r\n" }
    ensures short { length result.now ≤ 8 }
{
    match profile {
        Profile::Own => own_marks(marks),
        Profile::DropIn => memcached_marks(marks),
    }
}

/// The flags `W`, `X` and `Z` in memcached's order, and the line end.
fn memcached_marks(marks: Marks) -> &'static [u8]
    ensures line { result.now ≡ spec.marks_text Profile.DropIn marks ++ codes "\r\n" }
    ensures short { length result.now ≤ 8 }
{
    match (marks.sent, marks.stale, marks.won) {
        (false, false, false) => b"\r\n",
        (false, false, true) => b" W\r\n",
        (false, true, false) => b" X\r\n",
        (false, true, true) => b" X W\r\n",
        (true, false, false) => b" Z\r\n",
        (true, false, true) => b" Z W\r\n",
        (true, true, false) => b" Z X\r\n",
        (true, true, true) => b" Z X W\r\n",
    }
}

/// The flags `W`, `X` and `Z` in native order, and the line end.
fn own_marks(marks: Marks) -> &'static [u8]
    ensures line { result.now ≡ spec.marks_text Profile.Own marks ++ codes "\r\n" }
    ensures short { length result.now ≤ 8 }
{
    match (marks.won, marks.stale, marks.sent) {
        (false, false, false) => b"\r\n",
        (false, false, true) => b" Z\r\n",
        (false, true, false) => b" X\r\n",
        (false, true, true) => b" X Z\r\n",
        (true, false, false) => b" W\r\n",
        (true, false, true) => b" W Z\r\n",
        (true, true, false) => b" W X\r\n",
        (true, true, true) => b" W X Z\r\n",
    }
}

/// Writes the returned flags, in the order of the request.
fn put_flags<O: Sink>(
    out: &mut O,
    flags: &MetaFlags,
    key: &Option<Key>,
    answer: &Answer,
) -> Result<(), SinkError>
    ensures { Writes (flags_text flags.now key.now answer.now) result (O.sight out.old)
        (O.sight out.new) }
{
    for flag in flags.returned.flags() {
        put_flag(out, flags, key, answer, *flag)?;
    }
    Ok(())
}

fn put_flag<O: Sink>(
    out: &mut O,
    flags: &MetaFlags,
    key: &Option<Key>,
    answer: &Answer,
    flag: ReturnFlag,
) -> Result<(), SinkError>
    ensures { Writes (flag_text flags.now key.now answer.now flag) result (O.sight out.old)
        (O.sight out.new) }
{
    match flag {
        ReturnFlag::Key => put_key(out, flags.base64, key),
        ReturnFlag::Opaque => put_parts(out, &[b" O", flags.opaque.bytes()]),
        ReturnFlag::Unique
        | ReturnFlag::ClientFlags
        | ReturnFlag::Fetched
        | ReturnFlag::LastAccess
        | ReturnFlag::Size
        | ReturnFlag::TimeLeft => put_item_flag(out, answer, flag),
    }
}

/// Writes the flag `k`, followed by ` b` if the key is in base64.
fn put_key<O: Sink>(out: &mut O, base64: bool, key: &Option<Key>) -> Result<(), SinkError>
    ensures { Writes (key_flag base64 key.now) result (O.sight out.old) (O.sight out.new) }
{
    match key {
        None => write_all(out, b""),
        Some(key) if base64 => {
            let mut room = [0; BASE64_LIMIT];
            put_parts(out, &[b" k", key.to_base64(&mut room), b" b"])
        }
        Some(key) => put_parts(out, &[b" k", key.bytes()]),
    }
}

/// Writes a flag of the item that was found, stored or changed.
fn put_item_flag<O: Sink>(out: &mut O, answer: &Answer, flag: ReturnFlag) -> Result<(), SinkError>
    ensures { Writes (item_flag answer.now flag) result (O.sight out.old) (O.sight out.new) }
{
    match answer {
        Answer::MetaHit(hit) => put_hit_flag(out, hit, flag),
        Answer::MetaDone(done) => put_done_flag(out, done, flag),
        Answer::Stored
        | Answer::NotStored
        | Answer::Exists
        | Answer::NotFound
        | Answer::TooLarge
        | Answer::NoCas
        | Answer::NoMemory
        | Answer::Hit { .. }
        | Answer::Miss
        | Answer::Number(_)
        | Answer::NonNumeric
        | Answer::Deleted
        | Answer::Touched
        | Answer::Done
        | Answer::Stats(_)
        | Answer::Reset => write_all(out, b""),
    }
}

fn put_hit_flag<O: Sink>(out: &mut O, hit: &MetaHit, flag: ReturnFlag) -> Result<(), SinkError>
    ensures { Writes (item_flag (answers.MetaHit hit.now) flag) result (O.sight out.old)
        (O.sight out.new) }
{
    match flag {
        ReturnFlag::Unique => put_number(out, b" c", hit.unique),
        ReturnFlag::ClientFlags => put_number(out, b" f", u64::from(hit.flags)),
        ReturnFlag::Fetched if hit.fetched => write_all(out, b" h1"),
        ReturnFlag::Fetched => write_all(out, b" h0"),
        ReturnFlag::LastAccess => put_number(out, b" l", hit.idle),
        ReturnFlag::Size => put_number(out, b" s", hit.value.bytes().len() as u64),
        ReturnFlag::TimeLeft => put_left(out, hit.left),
        ReturnFlag::Key | ReturnFlag::Opaque => write_all(out, b""),
    }
}

fn put_done_flag<O: Sink>(out: &mut O, done: &MetaDone, flag: ReturnFlag) -> Result<(), SinkError>
    ensures { Writes (item_flag (answers.MetaDone done.now) flag) result (O.sight out.old)
        (O.sight out.new) }
{
    match flag {
        ReturnFlag::Unique => put_number(out, b" c", done.unique),
        ReturnFlag::Size => put_number(out, b" s", done.size),
        ReturnFlag::TimeLeft => put_left(out, done.left),
        ReturnFlag::ClientFlags
        | ReturnFlag::Fetched
        | ReturnFlag::LastAccess
        | ReturnFlag::Key
        | ReturnFlag::Opaque => write_all(out, b""),
    }
}

/// Writes the flag `t`: seconds to live, or -1 if the item doesn't expire.
fn put_left<O: Sink>(out: &mut O, left: Option<u64>) -> Result<(), SinkError>
    ensures { Writes (left_flag left) result (O.sight out.old) (O.sight out.new) }
{
    match left {
        Some(seconds) => put_number(out, b" t", seconds),
        None => write_all(out, b" t-1"),
    }
}

/// Writes a flag's letter and a number.
fn put_number<O: Sink>(out: &mut O, letter: &[u8], number: u64) -> Result<(), SinkError>
    ensures { Writes (concat (letter.now ∷ decimal number ∷ [])) result (O.sight out.old)
        (O.sight out.new) }
{
    let mut digits = Buffer::new();
    put_parts(out, &[letter, digits.format(number).as_bytes()])
}
