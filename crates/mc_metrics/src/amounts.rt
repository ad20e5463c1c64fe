//! Numbers for people, with separators and units.
ghost use Rattle.std.specs.Prelude.{◌≡◌, ◌++◌, OnOk, flat_map, string_bytes};
ghost use Rattle.mc_metrics.specs.Amounts.{amount_text, bytes_text, digits_of, duration_text, group_text, grouped, percent_of, tenths_text};

use std::alloc::AllocError;

/// The unit of an amount.
#[derive(Clone, Copy)]
pub(crate) enum Unit {
    Number,
    NumberPerSecond,
    Bytes,
    BytesPerSecond,
    Percent,
}

/// Powers of a thousand of the digit groups, but for the last group.
const GROUPS: [u64; 6] = [
    1_000_000_000_000_000_000,
    1_000_000_000_000_000,
    1_000_000_000_000,
    1_000_000_000,
    1_000_000,
    1_000,
];

const KIB: u64 = 1 << 10;

const MIB: u64 = 1 << 20;

const GIB: u64 = 1 << 30;

const MINUTE: u64 = 60;

const HOUR: u64 = 3_600;

const DAY: u64 = 86_400;

/// Appends the amount with its unit.
pub(crate) fn push_amount(text: &mut String, unit: Unit, amount: u64) -> Result<(), AllocError>
    ensures { OnOk result
        (string_bytes text.new ≡ string_bytes text.old ++ amount_text unit amount) }
{
    match unit {
        Unit::Number => push_grouped(text, amount),
        Unit::NumberPerSecond => {
            push_grouped(text, amount)?;
            text.push_str("/s")
        }
        Unit::Bytes => push_bytes(text, amount),
        Unit::BytesPerSecond => {
            push_bytes(text, amount)?;
            text.push_str("/s")
        }
        Unit::Percent => write!(text, "{amount}%"),
    }
}

/// Appends the number with thousands separators: `1,234,567`.
pub(crate) fn push_grouped(text: &mut String, number: u64) -> Result<(), AllocError>
    ensures { OnOk result (string_bytes text.new ≡ string_bytes text.old ++ grouped number) }
{
    push_groups(text, &GROUPS, number)?;
    push_digits(text, number)
}

/// Appends the digit groups of these powers of a thousand.
fn push_groups(text: &mut String, powers: &[u64], number: u64) -> Result<(), AllocError>
    ensures { OnOk result (string_bytes text.new ≡
        string_bytes text.old ++ flat_map (group_text number) powers.now) }
{
    for power in powers {
        push_group(text, *power, number)?;
    }
    Ok(())
}

/// Appends the digit group of this power of a thousand and a comma; nothing if the number is
/// smaller.
#[tactic(auto, unfolding(crate::specs::Amounts::group_text))]
fn push_group(text: &mut String, power: u64, number: u64) -> Result<(), AllocError>
    ensures { OnOk result
        (string_bytes text.new ≡ string_bytes text.old ++ group_text number power) }
{
    if power == 0 || number < power {
        return Ok(());
    }
    push_digits(text, number / power)?;
    text.push_str(",")
}

/// Appends the last three digits, or fewer if the number is smaller.
#[tactic(auto, unfolding(crate::specs::Amounts::digits_of))]
fn push_digits(text: &mut String, number: u64) -> Result<(), AllocError>
    ensures { OnOk result (string_bytes text.new ≡ string_bytes text.old ++ digits_of number) }
{
    if number < 1_000 {
        return write!(text, "{number}");
    }
    let hundreds = number / 100 % 10;
    let tens = number / 10 % 10;
    let ones = number % 10;
    write!(text, "{hundreds}{tens}{ones}")
}

/// Appends a size in bytes: `1,000 bytes`, `37.7 MiB`.
pub(crate) fn push_bytes(text: &mut String, bytes: u64) -> Result<(), AllocError>
    ensures { OnOk result (string_bytes text.new ≡ string_bytes text.old ++ bytes_text bytes) }
{
    if bytes < KIB {
        push_grouped(text, bytes)?;
        text.push_str(" bytes")
    } else if bytes < MIB {
        push_tenths(text, bytes / KIB, bytes % KIB * 10 / KIB, " KiB")
    } else if bytes < GIB {
        push_tenths(text, bytes / MIB, bytes % MIB * 10 / MIB, " MiB")
    } else {
        push_tenths(text, bytes / GIB, bytes % GIB * 10 / GIB, " GiB")
    }
}

/// Appends a number with one decimal and its unit.
#[tactic(auto, unfolding(crate::specs::Amounts::tenths_text))]
fn push_tenths(text: &mut String, whole: u64, tenths: u64, unit: &str) -> Result<(), AllocError>
    ensures { OnOk result
        (string_bytes text.new ≡ string_bytes text.old ++ tenths_text whole tenths unit.now) }
{
    push_grouped(text, whole)?;
    write!(text, ".{tenths}{unit}")
}

/// Appends a duration in its two largest units: `2 d 3 h`, `5 min 7 s`.
pub(crate) fn push_duration(text: &mut String, seconds: u64) -> Result<(), AllocError>
    ensures { OnOk result
        (string_bytes text.new ≡ string_bytes text.old ++ duration_text seconds) }
{
    let (days, hours) = (seconds / DAY, seconds % DAY / HOUR);
    let (minutes, rest) = (seconds % HOUR / MINUTE, seconds % MINUTE);
    if seconds < MINUTE {
        write!(text, "{seconds} s")
    } else if seconds < HOUR {
        write!(text, "{minutes} min {rest} s")
    } else if seconds < DAY {
        write!(text, "{hours} h {minutes} min")
    } else {
        write!(text, "{days} d {hours} h")
    }
}

/// Hit ratio in percent, rounded down; `None` without hits and misses.
#[tactic(auto, using(crate::proofs::AmountLemmas::a_share))]
pub(crate) fn percent_of(hits: u64, misses: u64) -> Option<u64>
    ensures { result ≡ percent_of hits misses }
{
    let part = u128::from(hits);
    let all = part + u128::from(misses);
    if all == 0 {
        return None;
    }
    let percent = (part * 100 / all) as u64;
    Some(percent)
}
