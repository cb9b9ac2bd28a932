//! The result of a call: a code, and the position of what is wrong.
ghost use Rattle.std.specs.Prelude.{◌≡◌, Err};
ghost use Rattle.s10_plain.specs.Identifiers.{success_code, code_of_text_fault};
ghost use Rattle.s10_plain.specs.Requests.{code_of_wire_fault, code_of_field_fault};
ghost use Rattle.s10_plain.specs.Replies.{code_of_received};
ghost use Rattle.s10_plain.specs.declared.received.Received.TheVariants as received;
ghost use Rattle.s10_plain.specs.declared.submit_fault.SubmitFault.TheVariants as submit;
ghost use Rattle.s10_plain.specs.Client.{code_of_submit};

use crate::field_fault::FieldFault;
use s10_core::TextFault;
use s10_wire::WireFault;

/// The result of a call.
#[repr(C)]
#[derive(Clone, Copy, Debug, PartialEq, Eq)]
pub struct ResultCode {
    /// 0 if the call is done, otherwise the first refusal that applies.
    pub code: u32,
    /// The position of the wrong character or byte, from 0; 0 if the code has none.
    pub at: u32,
}

/// Returns the code of success.
pub fn success() -> ResultCode
    ensures { result ≡ success_code }
{
    ResultCode { code: 0, at: 0 }
}

/// Returns the code of a text that is no identifier.
pub fn text_fault_code(fault: TextFault) -> ResultCode
    ensures { result ≡ code_of_text_fault fault }
{
    match fault {
        TextFault::Length => ResultCode { code: 1, at: 0 },
        TextFault::Letter(at) => ResultCode {
            code: 2,
            at: at as u32,
        },
        TextFault::Digit(at) => ResultCode {
            code: 3,
            at: at as u32,
        },
        TextFault::CheckDigit => ResultCode { code: 4, at: 0 },
    }
}

/// Returns the code of bytes that are no request, or no reply.
pub fn wire_fault_code(fault: WireFault) -> ResultCode
    ensures { result ≡ code_of_wire_fault fault }
{
    match fault {
        WireFault::Short => ResultCode { code: 11, at: 0 },
        WireFault::Magic => ResultCode { code: 12, at: 0 },
        WireFault::Version => ResultCode { code: 13, at: 0 },
        WireFault::Kind => ResultCode { code: 14, at: 0 },
        WireFault::Length => ResultCode { code: 15, at: 0 },
        WireFault::Field(at) => ResultCode {
            code: 16,
            at: at as u32,
        },
        WireFault::Outcome => ResultCode { code: 17, at: 0 },
    }
}

/// Returns the code of a client with no pending request.
pub fn idle() -> ResultCode
    ensures { result ≡ code_of_received received.Idle }
{
    ResultCode { code: 21, at: 0 }
}

/// Returns the code of a reply to another request.
pub fn not_mine() -> ResultCode
    ensures { result ≡ code_of_received received.NotMine }
{
    ResultCode { code: 22, at: 0 }
}

/// Returns the code of a submit while a request is pending.
pub fn busy() -> ResultCode
    ensures { result ≡ code_of_submit (Err submit.Busy) }
{
    ResultCode { code: 23, at: 0 }
}

/// Returns the code of a submit after the last number.
pub fn numbers_spent() -> ResultCode
    ensures { result ≡ code_of_submit (Err submit.NumbersSpent) }
{
    ResultCode { code: 24, at: 0 }
}

/// Returns the code of a wrong field.
pub fn field_fault_code(fault: FieldFault) -> ResultCode
    ensures { result ≡ code_of_field_fault fault }
{
    match fault {
        FieldFault::Kind => ResultCode { code: 31, at: 0 },
        FieldFault::Service => ResultCode { code: 32, at: 0 },
        FieldFault::Country => ResultCode { code: 33, at: 0 },
        FieldFault::First => ResultCode { code: 34, at: 0 },
        FieldFault::Last => ResultCode { code: 35, at: 0 },
        FieldFault::Count => ResultCode { code: 36, at: 0 },
        FieldFault::Text(fault) => text_fault_code(fault),
    }
}
