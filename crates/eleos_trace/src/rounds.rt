// Rounds of the swapper and changes of shares, from the words of their lines.
ghost use Rattle.std.specs.Prelude.{◌≡◌, ◌≤◌, List, ℕ, map, length};
ghost use Rattle.eleos_base.specs.Plans.{IsGood};
ghost use Rattle.eleos_trace.specs.Rounds.{own_in, swap_round_of, balloon_of};
ghost use Rattle.eleos_texts.specs.Reasons.{Reads};

use crate::givers::Asked;
use crate::machines::{enclave_in, enclave_of};
use crate::{Actor, Word};
use eleos_base::{MOST_FRAMES, Plan};
use eleos_texts::counts::two;
use eleos_texts::fields::{is_number, is_numeral, number_u32, number_up_to};
use eleos_texts::{LineRefused, Why, refused};

/// The number of an enclave that is declared, and of a caller its own.
fn own_in(plan: &Plan, actor: Actor, text: &[u8]) -> Option<u32>
    requires { length plan.now.enclaves ≤ 8 }
    ensures { result ≡ own_in plan.now actor text.now }
{
    match actor {
        Actor::Caller(caller) => {
            let own = u32::from(enclave_of(plan, caller));
            if is_number(text, own) {
                Some(own)
            } else {
                None
            }
        }
        Actor::Swapper | Actor::Balloon | Actor::Host => {
            let enclave = enclave_in(plan.enclaves.as_slice(), text)?;
            Some(u32::from(enclave))
        }
    }
}

/// `swap ENCLAVE LOW`
pub(crate) fn swap_round_of(asked: &Asked, args: &[&[u8]]) -> Result<Word, LineRefused>
    requires { IsGood asked.now.header.now.plan }
    ensures { Reads (λ x. x) result (swap_round_of asked.now.header.now asked.now.seen.now
        asked.now.actor asked.now.givers (map (λ arg. arg.now) args.now)) }
{
    let (enclave, low) = two(args)?;
    asked.admit_round(is_numeral(enclave) && is_numeral(low))?;
    let Some(low) = number_u32(low) else {
        return refused(Why::Range);
    };
    let Some(enclave) = own_in(&asked.header.plan, asked.actor, enclave) else {
        return refused(Why::Enclave);
    };
    Ok(Word::SwapRound { enclave, low })
}

/// `balloon ENCLAVE TO`
pub(crate) fn balloon_of(asked: &Asked, args: &[&[u8]]) -> Result<Word, LineRefused>
    requires { IsGood asked.now.header.now.plan }
    ensures { Reads (λ x. x) result (balloon_of asked.now.header.now asked.now.seen.now
        asked.now.actor asked.now.givers (map (λ arg. arg.now) args.now)) }
{
    let (enclave, to) = two(args)?;
    asked.admit_round(is_numeral(enclave) && is_numeral(to))?;
    let Some(to) = number_up_to(to, u64::from(MOST_FRAMES)) else {
        return refused(Why::Range);
    };
    let Some(enclave) = own_in(&asked.header.plan, asked.actor, enclave) else {
        return refused(Why::Enclave);
    };
    let to = to as u32;
    Ok(Word::SetShare { enclave, to })
}
