// The register: roles and records, each with a parent of lower number.
#![tactic(auto)]

ghost use Rattle.std.specs.Prelude.{◌≡◌, ◌≤◌, length};
ghost use Rattle.register.specs.Register.{contents, empty_register, role_places, record_places};
ghost use Rattle.register.specs.Records.{record_at};

pub mod form;
pub mod records;
pub mod roles;

// How many roles there can be.
pub const ROLES: usize = 16;

// How many records there can be.
pub const RECORDS: usize = 128;

// How many bytes a record has on a card.
pub const RECORD_SIZE: usize = 10;

// The last reach that there is.
pub const LAST_REACH: u8 = 3;

// The last type that a record can have.
pub const LAST_KIND: u8 = 7;

// In C's layout, and in this order without padding: it is a part of the library's state (ledger_stored).
#[repr(C)]
#[derive(Clone, Copy, Default)]
pub struct Record {
    pub author: u16,
    pub origins: u16,
    pub sensitivities: u16,
    pub labels: u16,
    pub parent: u8,
    // document 01: type; a member of sets of kinds, which have no names
    pub kind: u8,
}

// The parents of the roles and the records; what stands past the two counts has no meaning. In C's layout, as Record is: arrays and counts
// in fixed memory, which `roles` and `records` answer as slices.
#[repr(C)]
#[derive(Clone, Copy)]
pub struct Register {
    pub roles: [u8; ROLES],
    pub role_count: usize,
    pub records: [Record; RECORDS],
    pub record_count: usize,
}

impl Register {
    // No roles and no records.
    #[tactic(auto, unfolding(crate::specs::Register::empty_register))]
    pub fn empty() -> Register
        ensures { result ≡ empty_register }
    {
        let none = Record::default();
        let records = [none; RECORDS];
        let roles = [0u8; ROLES];
        Register {
            roles: roles,
            role_count: 0,
            records: records,
            record_count: 0,
        }
    }

    // The parent of each role, by the role's number.
    pub fn roles(&self) -> &[u8]
        ensures value { result.now ≡ (contents self.now).roles }
        ensures few { length result.now ≤ role_places }
    {
        &self.roles[..self.role_count.min(ROLES)]
    }

    // The records, by number.
    pub fn records(&self) -> &[Record]
        ensures value { result.now ≡ (contents self.now).records }
        ensures few { length result.now ≤ record_places }
    {
        &self.records[..self.record_count.min(RECORDS)]
    }

    // The record of number x; all zeros where the register lacks it.
    pub fn record_at(&self, x: usize) -> Record
        ensures { result ≡ record_at (contents self.now).records x }
    {
        self.records().get(x).copied().unwrap_or_default()
    }
}
