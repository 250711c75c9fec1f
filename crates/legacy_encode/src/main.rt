//! `legacy_encode CODEC [INDEX FILE]...` encodes standard input, a text in UTF-8.
//!
//! It writes the bytes of a legacy encoding of the WHATWG Encoding Standard, with a decimal numeric
//! character reference for each scalar that the encoding lacks.
#![tactic(auto)]

use legacy_command::host::{Program, exit_status};
use std::process::ExitCode;

fn main(rt: HostRuntime) -> ExitCode {
    ExitCode::from(exit_status(
        &rt,
        rt.alloc(),
        Program::Encode,
        &mut rt.stdin(),
        &mut rt.stdout(),
        &mut rt.stderr(),
    ))
}
