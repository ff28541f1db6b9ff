//! A reverse proxy for HTTP/1.1 with a shared cache. The work is in `proxy_program`.
#![tactic(auto)]

use std::process::ExitCode;

fn main(rt: HostRuntime) -> ExitCode {
    proxy_program::run(&rt)
}
