// The decision on a query at the clock.
ghost use Rattle.std.specs.Prelude.{◌≡◌, ◌⊎◌, Option, Ok};
ghost use Rattle.register.specs.Register.{contents};
ghost use Rattle.register.specs.Records.{record_at};
ghost use Rattle.directive.specs.declared.lowest.Best.{Best as Lowest};
ghost use Rattle.directive.specs.Matching.{request_at};
ghost use Rattle.directive.specs.Lowest.{best_of};
ghost use Rattle.ledger_model.specs.Model.{Model};
ghost use Rattle.ledger_model.specs.Decision.{matching};
ghost use Rattle.ledger_model.specs.Questions.{requester_in_range, is_in_range};
ghost use Rattle.ledger_model.specs.Calls.{decided};
ghost use Rattle.ledger.specs.Answer.{decide_answer};
ghost use Rattle.ledger.specs.Opening.{Undecided};
ghost use Rattle.ledger.specs.Promises.{Decides};

use crate::Ledger;
use crate::answer::{Decision, NotInRegister};
use directive::lowest::Best;
use directive::{Query, Request, Requester};
use register::Register;
use sets::bits;

// How many origins and purposes there are.
const ORIGINS: u8 = 16;

const PURPOSES: u8 = 11;

// The requester's part of question 17.
pub fn requester_in_range(register: &Register, w: Requester) -> bool
    ensures { result ≡ requester_in_range (contents register.now) w }
{
    usize::from(w.role) < register.roles().len() && w.origin < ORIGINS && w.purpose < PURPOSES
}

// Question 17.
fn in_range(register: &Register, q: Query) -> bool
    ensures { result ≡ is_in_range (contents register.now) q }
{
    requester_in_range(register, q.requester) && usize::from(q.record) < register.records().len()
}

// The lowest directive that matches, and without one the default consent of a record of these origins.
fn by_directives(best: Option<Best>, origins: u16, q: Query) -> Decision
    ensures { (m : Model) → Undecided m q origins → best ≡ best_of (matching m q) → decide_answer (Ok result) ≡ decided m q }
{
    match best {
        Some(lowest) => Decision::Directive {
            permit: lowest.permit,
            number: lowest.number,
        },
        None => Decision::Default {
            permit: bits::has(origins, q.requester.origin) && q.requester.purpose == 0,
        },
    }
}

// Question 17, the patient, the author, and then the directives: `lowest_match` gives the lowest of the active that matches a request.
// Patient, clock and register one by one: a ledger and a stored ledger have them, and are of no type in common.
pub fn decide_by<F: Fn(Request) -> Option<Best>>(
    patient: u16,
    clock: u32,
    register: &Register,
    q: Query,
    lowest_match: F,
) -> Result<Decision, NotInRegister>
    requires { F.IsAlwaysCallable lowest_match }
    ensures before_directives { (m : Model) → m.patient ≡ patient → m.register ≡ contents register.now → (decide_answer result ≡ decided m q) ⊎ Undecided m q (record_at (contents register.now).records q.«record»).origins }
    ensures decision { (m : Model) → m.patient ≡ patient → m.register ≡ contents register.now → ((best : Option Lowest) → F.post lowest_match (request_at q clock) best → best ≡ best_of (matching m q)) → decide_answer result ≡ decided m q }
{
    if !in_range(register, q) {
        return Err(NotInRegister);
    }
    if q.requester.person == patient {
        return Ok(Decision::Patient);
    }
    let record = register.record_at(usize::from(q.record));
    if q.requester.person == record.author {
        return Ok(Decision::Author);
    }
    Ok(by_directives(lowest_match(q.at(clock)), record.origins, q))
}

impl Ledger {
    pub fn decide(&self, q: Query) -> Result<Decision, NotInRegister>
        ensures { Decides self.now q result }
    {
        let roles = self.register.roles();
        let list = &self.active;
        decide_by(
            self.patient,
            self.clock,
            &self.register,
            q,
            |asked: Request| list.lowest_match(roles, asked),
        )
    }
}
