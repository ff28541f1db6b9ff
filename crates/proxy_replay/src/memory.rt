//! Replays over memory, where each byte that is read and written is known.
ghost use Rattle.std.specs.Prelude.{IfOk, IfErr};
ghost use Rattle.proxy_replay.specs.Replay.{IsReplayedOverEmptyStore, ScriptReplayFails};

use crate::play::replay;
use crate::replay_fault::ReplayFault;
use std::alloc::Global;

/// The text of the effects of a whole script.
pub fn replayed(alloc: Global, script: &[u8]) -> Result<Vec<u8>, ReplayFault>
    ensures ok { IfOk result (λ text. IsReplayedOverEmptyStore script.now text.items) }
    ensures fault { IfErr result (λ fault. ScriptReplayFails script.now fault) }
{
    let mut reader = script;
    let mut text = Vec::new(alloc);
    match replay(alloc, &mut reader, &mut text) {
        Ok(()) => Ok(text),
        Err(fault) => Err(fault),
    }
}
