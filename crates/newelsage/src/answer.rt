// What is told to the caller: a status, how many values, and the values, as eight numbers in the caller's memory: C's interface. A `usize`
// becomes a number by `as`: std has no `From` for it.
ghost use Rattle.std.specs.Prelude.{ℕ, ◌≤◌, ◌≡◌, [], length};
ghost use Rattle.ledger.specs.State.{view};
ghost use Rattle.card.specs.Answer.{read_answer};
ghost use Rattle.card.specs.Promises.{read_result};
ghost use Rattle.replay_entries.specs.Entries.{Said, line_of, Shows};
ghost use Rattle.newelsage.specs.Answers.{told, Answered, told_said, told_read, counts, token, told_to};

use card::ReadRefusal;
use ledger::Ledger;
use ledger::answer::NoToken;
use replay_entries::shown::Line;

// The call is none of the function's, or its value has not the length.
pub const MALFORMED: u64 = 101;

// A status with its values.
fn put(answer: &mut [u64; 8], status: u64, values: &[u64]) -> u64
    requires { length values.now ≤ 6 }
    ensures { Answered result answer.new (told status values.now) }
{
    *answer = [0; 8];
    answer[0] = status;
    answer[1] = values.len() as u64;
    answer[2..2 + values.len()].copy_from_slice(values);
    status
}

// A status alone.
pub fn refuse(answer: &mut [u64; 8], status: u64) -> u64
    ensures { Answered result answer.new (told status []) }
{
    put(answer, status, &[])
}

// The numbers of a line; a line without numbers is that of a malformed entry.
pub fn put_line(answer: &mut [u64; 8], line: &Line) -> u64
    ensures { (s : Said) (n : ℕ) → Shows line.now (line_of s) n → Answered result answer.new (told_said s) }
{
    match line.numbers() {
        [status, values @ ..] => put(answer, *status, values),
        [] => refuse(answer, MALFORMED),
    }
}

// What the ledger holds.
pub fn put_counts(answer: &mut [u64; 8], ledger: &Ledger) -> u64
    ensures { Answered result answer.new (told_to (view ledger.now) counts []) }
{
    let counts = [
        u64::from(ledger.patient()),
        u64::from(ledger.clock()),
        ledger.register().records().len() as u64,
        ledger.active().len() as u64,
        ledger.tokens().len() as u64,
    ];
    put(answer, 0, &counts)
}

// The token at a place, in order of issue.
pub fn put_token(answer: &mut [u64; 8], ledger: &Ledger, place: u8) -> u64
    ensures { Answered result answer.new (told_to (view ledger.now) (token place) []) }
{
    match ledger.tokens().as_slice().get(usize::from(place)) {
        Some(token) => {
            let numbers = [
                u64::from(token.number),
                u64::from(token.person),
                u64::from(token.states),
                u64::from(token.until),
            ];
            put(answer, 0, &numbers)
        }
        None => refuse(answer, NoToken.question()),
    }
}

// A card's records and active directives, or its refusal; a directive's conflict names another.
pub fn put_read(answer: &mut [u64; 8], read: &Result<Ledger, ReadRefusal>) -> u64
    ensures { Answered result answer.new (told_read (record { answer = read_answer (read_result read.now).answer; model = view (read_result read.now).ledger })) }
{
    match read {
        Ok(ledger) => {
            let records = ledger.register().records().len() as u64;
            let directives = ledger.active().len() as u64;
            put(answer, 0, &[records, directives])
        }
        Err(ReadRefusal::Directive(why)) => {
            put_line(answer, &replay_entries::line::directive_line(*why))
        }
        Err(why) => refuse(answer, why.question()),
    }
}
