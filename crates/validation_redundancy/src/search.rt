// Redundancy: every request that a directive matches is matched by active ones of its effect, several together if need be.
ghost use Rattle.std.specs.Prelude.{◌≡◌, ◌&&◌, not, List, ◌≤◌, length, nat_eq};
ghost use Rattle.std.specs.Int.Bits.{bit_and};
ghost use Rattle.register.specs.declared.Record.{Record as Held};
ghost use Rattle.register.specs.Register.{role_places, holding};
ghost use Rattle.active.specs.Active.{entries_of, directives_of};
ghost use Rattle.validation_meaning.specs.Meaning.{redundant};
ghost use Rattle.validation_meaning.specs.Search.{redundant_found, Fit};
ghost use Rattle.validation_conflict.specs.Given.{Given};
ghost use Rattle.validation_redundancy.specs.Masks.{all_covered};

use crate::masks::{origin_mask, purpose_mask, record_mask, role_mask, standing_roles};
use crate::tables::{Tables, minutes_of, table};
use active::{Active, ActiveList};
use sets::bits;

// Whether the directives of `done`, which leave nothing uncovered, are all among those of `mask`.
fn known(done: u32, mask: u32) -> bool
    ensures { result ≡ not (nat_eq done 0) && nat_eq (bit_and mask done) done }
{
    done != 0 && mask & done == done
}

// Whether no request is left uncovered. At each level a mask of the directives that match so far is narrowed; one that has in it all of the
// last mask that left nothing uncovered leaves nothing uncovered. Document 01 names the form: labelled nested loops over record, origin,
// purpose, role and boundary minute, left from inside at the first uncovered request. `as`: a counter stays below the end of its loop, and
// `TryFrom` would answer a `Result` that cannot fail.
fn all_covered(a: &Active, list: &ActiveList, tables: &Tables) -> bool
    ensures { result ≡ all_covered a.now (entries_of list.now) tables.now }
{
    let permit = a.directive.permit;
    let records = a.selected;
    let origins = a.directive.subject_origins;
    let purposes = a.directive.purposes;
    let roles = tables.roles;
    let minutes = tables.minutes.as_slice();
    let mut covered = true;
    let mut done_at_item: u32 = 0;
    'item: for x in 0..128usize {
        if !records.contains(x) {
            continue 'item;
        }
        let at_item = record_mask(list, permit, x);
        if known(done_at_item, at_item) {
            continue 'item;
        }
        let mut done_at_origin: u32 = 0;
        'origin: for o in 0..16usize {
            if !bits::has(origins, o as u8) {
                continue 'origin;
            }
            let at_origin = at_item & tables.by_origin[o];
            if known(done_at_origin, at_origin) {
                continue 'origin;
            }
            let mut done_at_purpose: u32 = 0;
            'purpose: for u in 0..11usize {
                if !bits::has(purposes, u as u8) {
                    continue 'purpose;
                }
                let at_purpose = at_origin & tables.by_purpose[u];
                if known(done_at_purpose, at_purpose) {
                    continue 'purpose;
                }
                let mut done_at_role: u32 = 0;
                'role: for r in 0..16usize {
                    if !bits::has(roles, r as u8) {
                        continue 'role;
                    }
                    let at_role = at_purpose & tables.by_role[r];
                    if known(done_at_role, at_role) {
                        continue 'role;
                    }
                    'minute: for &mask in minutes {
                        if at_role & mask == 0 {
                            covered = false;
                            break 'item;
                        }
                    }
                    done_at_role = at_role;
                }
                done_at_purpose = at_purpose;
            }
            done_at_origin = at_origin;
        }
        done_at_item = at_item;
    }
    covered
}

// Whether the directive is redundant beside the active ones. The parts of a ledger stand by themselves, since the ledger is a crate above.
pub fn is_redundant(parents: &[u8], clock: u32, a: &Active, list: &ActiveList) -> bool
    requires { length parents.now ≤ role_places }
    ensures searched { (rs : List Held) → Given rs a.now list.now → result ≡ redundant_found (holding parents.now rs) clock a.now.directive (directives_of list.now) }
    ensures meant { (rs : List Held) → Given rs a.now list.now → Fit (holding parents.now rs) a.now.directive → result ≡ redundant (holding parents.now rs) clock a.now.directive (directives_of list.now) }
{
    let d = &a.directive;
    let s = d.subject;
    let roles = standing_roles(parents, s, s);
    let by_origin = table(d.subject_origins, |k| origin_mask(list, k));
    let by_purpose = table(d.purposes, |k| purpose_mask(list, k));
    let by_role = table(roles, |k| role_mask(list, parents, s, u16::from(k)));
    let minutes = minutes_of(clock, d, list);
    let tables = Tables {
        by_origin,
        by_purpose,
        roles,
        by_role,
        minutes,
    };
    all_covered(a, list, &tables)
}
