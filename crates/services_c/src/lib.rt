// The services on order files, for C (Specification 1.2): each call is that of `services`, with its clauses.
#![tactic(auto)]

ghost use Rattle.std.specs.Prelude.{◌≡◌, length};
ghost use Rattle.answers.specs.Lengths.{text_limit};
ghost use Rattle.promises.specs.Promise.{CheckCalled, ListCalled, SplitCalled};

// List on an order file (Specification 1.2).
#[unsafe(no_mangle)]
pub extern "C" fn sukoreta_list(order: &[u8], answer: &mut [u8]) -> i64
    ensures kept { ListCalled order.now (length answer.old) result answer.new }
{
    services::sukoreta_list(order, answer)
}

// Split on an order file (Specification 1.2).
#[unsafe(no_mangle)]
pub extern "C" fn sukoreta_split(order: &[u8], answer: &mut [u8]) -> i64
    ensures kept { SplitCalled order.now (length answer.old) result answer.new }
{
    services::sukoreta_split(order, answer)
}

// Check on an order file (Specification 1.2).
#[unsafe(no_mangle)]
pub extern "C" fn sukoreta_check(order: &[u8], answer: &mut [u8]) -> i64
    ensures kept { CheckCalled order.now (length answer.old) result answer.new }
{
    services::sukoreta_check(order, answer)
}

// The bytes of the longest text: an answer area of so many has room for any (Specification 9.4).
#[unsafe(no_mangle)]
pub extern "C" fn sukoreta_answer_limit() -> usize
    ensures longest { result ≡ text_limit }
{
    services::sukoreta_answer_limit()
}
