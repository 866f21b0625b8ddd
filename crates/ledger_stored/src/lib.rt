// The ledger as a caller in another language holds it: numbers alone, so that every bit pattern of its memory is a value, and no
// padding, so that no byte of it is left to chance.
#![tactic(auto)]

ghost use Rattle.std.specs.Prelude.{◌≡◌, List, map, take, ◌≤◌, length};
ghost use Rattle.sets.specs.Quantifiers.{keep};
ghost use Rattle.register.specs.declared.Record.{Record as Held};
ghost use Rattle.register.specs.Register.{record_places, holding};
ghost use Rattle.directive.specs.Matching.{matches};
ghost use Rattle.directive.specs.Lowest.{best_of};
ghost use Rattle.active.specs.Active.{directives_of, ActiveInvariant};
ghost use Rattle.ledger.specs.Promises.{Decides};
ghost use Rattle.ledger_stored.specs.Stored.{active_of, stored_active, token_of, stored_token, active_list, ledger_of, stored_of};

use active::{Active, ActiveList};
use directive::lowest::{self, Best};
use directive::{Directive, Query, Request, Subject};
use emergency::{Token, TokenList};
use ledger::answer::{Decision, NotInRegister};
use ledger::{Ledger, decision};
use register::Register;
use register::records::Reach;
use sets::record_set::RecordSet;

// What a stored ledger begins with: a name, and in the two lowest bytes the version of the layout.
pub const STAMP: u64 = 0x4E6577656C730001;

// How many bytes a stored ledger has.
pub const SIZE: usize = 2928;

// An active directive with the records that it selects; 48 bytes, in the order of `Active`, so that most of them are copied in a few moves.
#[repr(C)]
#[derive(Clone, Copy)]
pub struct StoredActive {
    number: u16,
    // 1 for permit, 0 for deny
    permit: u8,
    unused_1: u8,
    // 1 for a role, 0 for a person
    kind: u16,
    subject: u16,
    subject_origins: u16,
    record: u8,
    reach: u8,
    origins: u16,
    sensitivities: u16,
    kinds: u8,
    unused_2: u8,
    purposes: u16,
    from: u32,
    until: u32,
    unused_3: u32,
    low: u64,
    high: u64,
}

impl From<StoredActive> for Active {
    ghost from_gives = { λ stored a. a ≡ active_of stored };

    #[tactic(auto, unfolding(crate::specs::Stored::active_of, crate::specs::Stored::directive_of))]
    fn from(stored: StoredActive) -> Active {
        Active {
            directive: Directive {
                number: stored.number,
                permit: stored.permit != 0,
                subject: Subject::named(stored.kind != 0, stored.subject),
                subject_origins: stored.subject_origins,
                record: stored.record,
                reach: Reach::from(stored.reach),
                origins: stored.origins,
                sensitivities: stored.sensitivities,
                kinds: stored.kinds,
                purposes: stored.purposes,
                from: stored.from,
                until: stored.until,
            },
            selected: RecordSet {
                low: stored.low,
                high: stored.high,
            },
        }
    }
}

impl From<Active> for StoredActive {
    ghost from_gives = { λ a stored. stored ≡ stored_active a };

    #[tactic(auto, unfolding(crate::specs::Stored::stored_active))]
    fn from(a: Active) -> StoredActive {
        let d = a.directive;
        StoredActive {
            number: d.number,
            permit: u8::from(d.permit),
            unused_1: 0,
            kind: u16::from(d.subject.is_role()),
            subject: d.subject.number(),
            subject_origins: d.subject_origins,
            record: d.record,
            reach: u8::from(d.reach),
            origins: d.origins,
            sensitivities: d.sensitivities,
            kinds: d.kinds,
            unused_2: 0,
            purposes: d.purposes,
            from: d.from,
            until: d.until,
            unused_3: 0,
            low: a.selected.low,
            high: a.selected.high,
        }
    }
}

// A token; 12 bytes.
#[repr(C)]
#[derive(Clone, Copy)]
pub struct StoredToken {
    until: u32,
    number: u16,
    person: u16,
    states: u8,
    unused_1: u8,
    unused_2: u16,
}

impl From<StoredToken> for Token {
    ghost from_gives = { λ stored k. k ≡ token_of stored };

    #[tactic(auto, unfolding(crate::specs::Stored::token_of))]
    fn from(stored: StoredToken) -> Token {
        Token {
            number: stored.number,
            person: stored.person,
            states: stored.states,
            until: stored.until,
        }
    }
}

impl From<Token> for StoredToken {
    ghost from_gives = { λ k stored. stored ≡ stored_token k };

    #[tactic(auto, unfolding(crate::specs::Stored::stored_token))]
    fn from(k: Token) -> StoredToken {
        StoredToken {
            until: k.until,
            number: k.number,
            person: k.person,
            states: k.states,
            unused_1: 0,
            unused_2: 0,
        }
    }
}

// Arrays and counts: C holds it, in memory of a fixed size.
#[repr(C)]
#[derive(Clone, Copy)]
pub struct StoredLedger {
    pub stamp: u64,
    clock: u32,
    patient: u16,
    unused: u16,
    register: Register,
    active: [StoredActive; active::PLACES],
    active_count: usize,
    tokens: [StoredToken; emergency::PLACES],
    token_count: usize,
}

// The ledger that a stored one stands for, whatever its numbers are.
impl From<&StoredLedger> for Ledger {
    ghost from_gives = { λ stored l. l ≡ ledger_of stored.now };

    fn from(stored: &StoredLedger) -> Ledger {
        let active = ActiveList {
            entries: stored.active.map(Active::from),
            count: stored.active_count,
        };
        let tokens = TokenList {
            tokens: stored.tokens.map(Token::from),
            count: stored.token_count,
        };
        Ledger::from_parts(
            stored.patient,
            stored.clock,
            stored.register,
            active,
            tokens,
        )
    }
}

// Not one generic function with `stored_tokens`: it would ask its callers how much memory `map` takes at their types.
fn stored_actives(entries: [Active; active::PLACES]) -> [StoredActive; active::PLACES]
    ensures { result ≡ map stored_active entries }
{
    entries.map(StoredActive::from)
}

fn stored_tokens(tokens: [Token; emergency::PLACES]) -> [StoredToken; emergency::PLACES]
    ensures { result ≡ map stored_token tokens }
{
    tokens.map(StoredToken::from)
}

// The ledger, stored.
impl From<&Ledger> for StoredLedger {
    ghost from_gives = { λ l stored. stored ≡ stored_of l.now };

    #[tactic(auto, unfolding(crate::specs::Stored::stored_of))]
    fn from(l: &Ledger) -> StoredLedger {
        let active = l.active();
        let tokens = l.tokens();
        StoredLedger {
            stamp: STAMP,
            clock: l.clock(),
            patient: l.patient(),
            unused: 0,
            register: *l.register(),
            active: stored_actives(active.entries),
            active_count: active.count,
            tokens: stored_tokens(tokens.tokens),
            token_count: tokens.count,
        }
    }
}

impl StoredLedger {
    // The active directives that count, in their order.
    fn entries(&self) -> &[StoredActive]
        ensures { result.now ≡ take self.now.active_count self.now.active }
    {
        &self.active[..self.active_count.min(active::PLACES)]
    }

    // The lowest of them that match the request. An entry is brought back where it is looked at.
    fn lowest_match(&self, parents: &[u8], q: Request) -> Option<Best>
        ensures { (rs : List Held) → length rs ≤ record_places → ActiveInvariant rs (active_list self.now) → result ≡ best_of (keep (λ d. matches (holding parents.now rs) d q) (directives_of (active_list self.now))) }
    {
        lowest::lowest_met(self.entries(), |stored| {
            let a = Active::from(*stored);
            a.matches(parents, q).then_some(Best::of(&a.directive))
        })
    }

    // The decision of the ledger that a stored one stands for. Nothing but the directives that count is brought back.
    pub fn decide(&self, q: Query) -> Result<Decision, NotInRegister>
        ensures { Decides (ledger_of self.now) q result }
    {
        let roles = self.register.roles();
        decision::decide_by(
            self.patient,
            self.clock,
            &self.register,
            q,
            |asked: Request| self.lowest_match(roles, asked),
        )
    }
}
