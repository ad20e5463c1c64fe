//! The program's version.
use crate::refuse;
use std::io::{Eprint, Print};
use std::process::ExitCode;

/// The version number.
pub const VERSION: &str = "1.0.0";

/// The logic in which the program was proved, as at the end of `rt version`. Kits of the same logic
/// prove the same.
const LOGIC: &str = "logic dac8208d650f15bf";

/// Prints name, version and logic on standard output, and returns the exit status.
pub fn tell_version<R: Print + Eprint>(rt: &R) -> ExitCode {
    match println!(rt; "mcd {VERSION} (Rattle, {LOGIC})") {
        Ok(()) => ExitCode::SUCCESS,
        Err(_) => refuse(rt, "cannot write"),
    }
}
