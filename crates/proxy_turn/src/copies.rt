//! Copies of what is told of a reply, for a log of calls.
ghost use Rattle.std.specs.Prelude.{◌≡◌, IfOk, option_copied};

use hx_status::{AskedTarget, MethodAndTarget, ReplyData};
use std::alloc::{AllocError, Global};

fn copy_target(alloc: Global, target: &AskedTarget) -> Result<AskedTarget, AllocError>
    ensures { IfOk result (λ copied. copied ≡ target.now) }
{
    match target {
        AskedTarget::Uri(key) => Ok(AskedTarget::Uri(key.copy(alloc)?)),
        AskedTarget::AsItCame(text) => Ok(AskedTarget::AsItCame(text.copy(alloc)?)),
    }
}

fn copy_question(
    alloc: Global,
    question: Option<&MethodAndTarget>,
) -> Result<Option<MethodAndTarget>, AllocError>
    ensures { IfOk result (λ copied. copied ≡ option_copied question.entry) }
{
    match question {
        Some(question) => Ok(Some(MethodAndTarget {
            method: question.method.clone()?,
            target: copy_target(alloc, &question.target)?,
        })),
        None => Ok(None),
    }
}

/// What is told of a reply, once more. Its only error is out of memory.
pub(crate) fn copy_reply_data(
    alloc: Global,
    replied: Option<&ReplyData>,
) -> Result<Option<ReplyData>, AllocError>
    ensures { IfOk result (λ copied. copied ≡ option_copied replied.entry) }
{
    match replied {
        Some(replied) => Ok(Some(ReplyData {
            about: replied.about,
            question: copy_question(alloc, replied.question.as_ref())?,
        })),
        None => Ok(None),
    }
}
