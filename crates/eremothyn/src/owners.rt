// Who owns an entry: where its user, group and class stand in the table.
ghost use Rattle.std.specs.Prelude.{◌≡◌, ◌≤◌};
ghost use Rattle.crontab.specs.Owners.{owner_in};
ghost use Rattle.eremothyn.specs.Rules.{rules_of};
ghost use Rattle.eremothyn.specs.Owners.{owned_in, owner_number};
ghost use Rattle.eremothyn.specs.Calls.{user_offset_call, user_length_call, group_offset_call, group_length_call, class_offset_call, class_length_call};

use crate::answer::answer;
use crate::rules::rules_of;
use crontab::owner;
use line::user::Owner;

// What is asked of an owner.
// By name and no closure, as in dates.
#[derive(Clone, Copy)]
enum Owned {
    UserOffset,
    UserLength,
    GroupOffset,
    GroupLength,
    ClassOffset,
    ClassLength,
}

fn owned_in(owner: Owner, what: Owned) -> u64
    requires { (owner.user.start ≤ owner.user.end) × (owner.group.start ≤ owner.group.end) × (owner.class.start ≤ owner.class.end) }
    ensures { result ≡ owned_in owner what }
{
    let user = owner.user;
    let group = owner.group;
    let class = owner.class;
    match what {
        Owned::UserOffset => user.start as u64,
        Owned::UserLength => (user.end - user.start) as u64,
        Owned::GroupOffset => group.start as u64,
        Owned::GroupLength => (group.end - group.start) as u64,
        Owned::ClassOffset => class.start as u64,
        Owned::ClassLength => (class.end - class.start) as u64,
    }
}

fn owner_number(table: &[u8], kind: u64, dialect: u64, entry: u64, what: Owned) -> u64
    ensures { result ≡ owner_number (owner_in (rules_of kind dialect) table.now entry) what }
{
    match owner::read(table, rules_of(kind, dialect), entry) {
        Ok(found) => owned_in(found, what),
        Err(refusal) => answer(Err(refusal)),
    }
}

#[unsafe(no_mangle)]
pub extern "C" fn eremothyn_user_offset(table: &[u8], kind: u64, dialect: u64, entry: u64) -> u64
    ensures { result ≡ user_offset_call table.now kind dialect entry }
{
    owner_number(table, kind, dialect, entry, Owned::UserOffset)
}

#[unsafe(no_mangle)]
pub extern "C" fn eremothyn_user_length(table: &[u8], kind: u64, dialect: u64, entry: u64) -> u64
    ensures { result ≡ user_length_call table.now kind dialect entry }
{
    owner_number(table, kind, dialect, entry, Owned::UserLength)
}

#[unsafe(no_mangle)]
pub extern "C" fn eremothyn_group_offset(table: &[u8], kind: u64, dialect: u64, entry: u64) -> u64
    ensures { result ≡ group_offset_call table.now kind dialect entry }
{
    owner_number(table, kind, dialect, entry, Owned::GroupOffset)
}

#[unsafe(no_mangle)]
pub extern "C" fn eremothyn_group_length(table: &[u8], kind: u64, dialect: u64, entry: u64) -> u64
    ensures { result ≡ group_length_call table.now kind dialect entry }
{
    owner_number(table, kind, dialect, entry, Owned::GroupLength)
}

#[unsafe(no_mangle)]
pub extern "C" fn eremothyn_class_offset(table: &[u8], kind: u64, dialect: u64, entry: u64) -> u64
    ensures { result ≡ class_offset_call table.now kind dialect entry }
{
    owner_number(table, kind, dialect, entry, Owned::ClassOffset)
}

#[unsafe(no_mangle)]
pub extern "C" fn eremothyn_class_length(table: &[u8], kind: u64, dialect: u64, entry: u64) -> u64
    ensures { result ≡ class_length_call table.now kind dialect entry }
{
    owner_number(table, kind, dialect, entry, Owned::ClassLength)
}
