//! A row of the file of rows.
use crate::escape::{number, unescape};
use mc_command::Profile;
use mc_wire::DEFAULT_VALUE_LIMIT;
use std::alloc::{AllocError, Global};

/// Input for new shards at one time, and the expected output.
#[derive(Drop)]
pub struct Row {
    /// The protocol profile of the server.
    pub profile: Profile,
    /// The Unix time of every command, in seconds.
    pub moment: u64,
    /// Memory budget of a shard, in bytes.
    pub bytes: usize,
    /// Value limit in bytes.
    pub value: usize,
    pub input: Vec<u8>,
    pub output: Vec<u8>,
}

impl Row {
    /// Parses a row for this profile. Its fields are separated by tabs: name, time, budget, input,
    /// output, and the output under memcached's rules if that differs. After the budget, a value
    /// limit may follow a `/`. A line that starts with `#` is a comment.
    pub fn read(alloc: Global, profile: Profile, line: &[u8]) -> Result<Option<Row>, AllocError> {
        if line.is_empty() || line.starts_with(b"#") {
            return Ok(None);
        }
        let (_name, rest) = split_at_tab(line);
        let (moment, rest) = split_at_tab(rest);
        let (bytes, rest) = split_at_tab(rest);
        let (input, rest) = split_at_tab(rest);
        let (own, memcacheds) = split_at_tab(rest);
        let output = match profile {
            Profile::DropIn if !memcacheds.is_empty() => memcacheds,
            _ => own,
        };
        let (bytes, value) = split_at(bytes, b'/');
        let Ok(bytes) = usize::try_from(number(bytes)) else {
            return Ok(None);
        };
        let value = match usize::try_from(number(value)) {
            Ok(limit) if limit > 0 => limit,
            _ => DEFAULT_VALUE_LIMIT,
        };
        Ok(Some(Row {
            profile,
            moment: number(moment),
            bytes,
            value,
            input: unescape(alloc, input)?,
            output: unescape(alloc, output)?,
        }))
    }

    /// Number of values in the output that are longer than this. `bytes` must exceed a reply's
    /// other lines: a value is on a line of its own and ends by CR LF. A value that
    /// contains a line end may not be counted.
    pub fn values_longer_than(&self, bytes: usize) -> usize {
        let mut values = 0usize;
        let mut behind_end = 0usize;
        for byte in self.output.iter() {
            behind_end = if *byte == b'\n' {
                0
            } else {
                behind_end.saturating_add(1)
            };
            // The first byte of the line end is behind the value.
            if behind_end == bytes.saturating_add(2) {
                values = values.saturating_add(1);
            }
        }
        values
    }
}

/// The text before and after the first tab.
pub fn split_at_tab(text: &[u8]) -> (&[u8], &[u8]) {
    split_at(text, b'\t')
}

/// The text before and after the first such byte.
fn split_at(text: &[u8], mark: u8) -> (&[u8], &[u8]) {
    match text.iter().position(|byte| *byte == mark) {
        Some(place) => (&text[..place], &text[place + 1..]),
        None => (text, &[]),
    }
}
