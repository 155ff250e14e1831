// What other programs link: the functions of include/gustmirror.h.
#![tactic(auto)]

ghost use Rattle.std.specs.Prelude.{◌≡◌};
ghost use Rattle.rules.specs.Answer.{answer_in};
ghost use Rattle.rules.specs.Result.{code_of, length_of};
ghost use Rattle.capi.specs.One.{Codes};
ghost use Rattle.round.specs.Round.{SmallAnswer};

use rules::Refusal;

// 2^32, above every offset.
const NUMBER: u64 = 4294967296;

// An answer as one number.
fn code(r: Result<usize, Refusal>) -> u64
    requires { SmallAnswer (answer_in r) }
    ensures { result ≡ code_of (answer_in r) }
{
    match r {
        Ok(_) => 0,
        Err(refusal) => refusal.rule.number() * NUMBER + refusal.at as u64,
    }
}

// 0 when cleared, otherwise the refusal's number × 2^32 + its offset.
#[unsafe(no_mangle)]
pub extern "C" fn gustmirror_clear(file: &[u8], res: &mut [u8]) -> u64
    ensures { Codes file.now res.old result res.new }
{
    code(round::clear(file, res))
}

// How long a result the file needs, 0 where it is refused.
#[unsafe(no_mangle)]
pub extern "C" fn gustmirror_result_len(file: &[u8]) -> u64
    ensures { result ≡ length_of file.now }
{
    round::result_len(file) as u64
}
