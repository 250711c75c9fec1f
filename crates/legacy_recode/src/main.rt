//! `legacy_recode [--text] CODEC [INDEX FILE]...` decodes standard input by a legacy codec.
//!
//! The codecs are those of the WHATWG Encoding Standard. It prints a line for each scalar and each
//! malformed sequence, or with `--text` the text in UTF-8.
#![tactic(auto)]

use legacy_command::host::{Program, exit_status};
use std::process::ExitCode;

fn main(rt: HostRuntime) -> ExitCode {
    ExitCode::from(exit_status(
        &rt,
        rt.alloc(),
        Program::Recode,
        &mut rt.stdin(),
        &mut rt.stdout(),
        &mut rt.stderr(),
    ))
}
