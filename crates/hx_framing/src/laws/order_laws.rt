//! Laws on the order of the faults at the end of a head. They hold of the definitions, so each body is empty.
ghost use Rattle.std.specs.Prelude.{◌≡◌, ℕ, Bool, false, Ok, Err};
ghost use Rattle.hx_framing.specs.declared.frame_fault.FrameFault.{FrameFault};
ghost use Rattle.hx_framing.specs.declared.frame_fault.FrameFault.TheVariants as fault;
ghost use Rattle.hx_framing.specs.declared.lengths.framing.Framing.{Framing};
ghost use Rattle.hx_framing.specs.declared.lengths.framing.RequestFraming.{RequestFraming};
ghost use Rattle.hx_framing.specs.declared.heads.request_head.Head.{Head};
ghost use Rattle.hx_framing.specs.declared.heads.status_head.StatusHead.{StatusHead};
ghost use Rattle.hx_framing.specs.Fault.{frame_fault_number};
ghost use Rattle.hx_framing.specs.FaultOrder.{fault_applies_to_request_head, fault_applies_to_response_head};
ghost use Rattle.hx_framing.specs.FaultOrder.{IsLeastFault};
ghost use Rattle.hx_framing.specs.Lengths.{request_framing_of, framing_of_response};

/// The numbers of the faults.
pub fn worked_frame_fault_numbers()
    ensures head { frame_fault_number fault.Head ≡ 1 }
    ensures version { frame_fault_number fault.Version ≡ 2 }
    ensures both_lengths { frame_fault_number fault.BothLengths ≡ 3 }
    ensures length { frame_fault_number fault.Length ≡ 4 }
    ensures coding { frame_fault_number fault.Coding ≡ 5 }
    ensures chunk { frame_fault_number fault.Chunk ≡ 6 }
    ensures too_large { frame_fault_number fault.TooLarge ≡ 7 }
    ensures expect { frame_fault_number fault.Expect ≡ 8 }
    ensures truncated { frame_fault_number fault.Truncated ≡ 9 }
    ensures status { frame_fault_number fault.Status ≡ 10 }
{}

/// Of the faults that stand at the end of a request's head the one of the least number is told, and
/// none where none stands.
pub fn the_least_fault_of_a_request_is_named()
    ensures fault { (max_body : ℕ) → (head : Head) → (fault : FrameFault) → request_framing_of max_body head ≡ Err fault
        → IsLeastFault (fault_applies_to_request_head max_body head) fault }
    ensures none { (max_body : ℕ) → (head : Head) → (body : RequestFraming) → request_framing_of max_body head ≡ Ok body
        → (fault : FrameFault)
        → fault_applies_to_request_head max_body head fault ≡ false }
{}

/// The same of a response: its length fields don't count where it has no content, and its status is judged last.
pub fn the_least_fault_of_a_response_is_named()
    ensures fault { (max_body : ℕ) → (to_head : Bool) → (head : StatusHead) → (fault : FrameFault)
        → framing_of_response max_body to_head head ≡ Err fault
        → IsLeastFault (fault_applies_to_response_head max_body to_head head) fault }
    ensures none { (max_body : ℕ) → (to_head : Bool) → (head : StatusHead) → (framing : Framing)
        → framing_of_response max_body to_head head ≡ Ok framing → (fault : FrameFault)
        → fault_applies_to_response_head max_body to_head head fault ≡ false }
{}
