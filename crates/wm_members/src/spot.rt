// Spots: what stands for a member, and what an argument of a struct hands on.
ghost use Rattle.std.specs.Prelude.{◌≡◌, IfOk, OnOk, is_none, ◌&&◌, option_map};
ghost use Rattle.wm_lang.specs.declared.expression.Expr.{Expr as tree};
ghost use Rattle.wm_members.specs.Expressions.{structure_behind, is_arrow, pointed_member, pointed_in, pointed, member_kind, addressed_kind, addressed, member_argument, members_handed, plain_named};
ghost use Rattle.wm_members.specs.Making.{all_behind};
ghost use Rattle.wm_members.specs.States as spec;

use crate::fault::Kind;
use crate::handed::Named;
use crate::member::Member;
use crate::naming::name_of_member;
use crate::state::{Meaning, State};
use sqlite_items::{Boxed, Items};
use std::alloc::Global;
use wm_lang::{Expr, Identifier, MemberMark, Position, Spot, SpotKind};
use wm_ops::NoMemory;

/// The struct whose member a name and a mark want: `.` behind a struct object, `->` behind a struct parameter.
fn structure_wanted(meaning: Meaning, mark: MemberMark) -> Option<Option<usize>>
    ensures structure { result ≡ structure_behind meaning mark }
{
    match meaning {
        Meaning::Object(number) => match mark {
            MemberMark::Dot => Some(number),
            MemberMark::Arrow => None,
        },
        Meaning::Parameter(number) => match mark {
            MemberMark::Dot => None,
            MemberMark::Arrow => Some(number),
        },
        Meaning::Function(_) => None,
        Meaning::Other => None,
    }
}

fn points(mark: MemberMark) -> bool
    ensures arrow { result ≡ is_arrow mark }
{
    match mark {
        MemberMark::Dot => false,
        MemberMark::Arrow => true,
    }
}

/// Whether a member is a scalar behind `->`.
fn is_pointed(member: &Member<'_>, mark: MemberMark) -> bool
    ensures pointed { result ≡ (is_arrow mark && is_none member.now.bracket) }
{
    if points(mark) {
        return member.bracket().is_none();
    }
    false
}

/// Whether the member of a struct is a scalar behind `->`; None where the struct has no such member.
fn pointed_of(number: usize, mark: MemberMark, member: &[u8], state: &State<'_>) -> Option<bool>
    ensures pointed { result ≡ option_map (λ found. is_arrow mark && is_none found.bracket) (spec.member_of number member.now state.now) }
{
    match state.member(number, member) {
        None => None,
        Some(found) => Some(is_pointed(found, mark)),
    }
}

/// Whether the member of a struct is a scalar behind `->`, with the fault where there is no such member.
fn pointed_among(
    number: usize,
    mark: MemberMark,
    member: &Identifier,
    state: &mut State<'_>,
) -> bool
    ensures pointed { (result, state.new) ≡ pointed_member (spec.member_of number member.now.name state.old) mark member.now state.old }
{
    match pointed_of(number, mark, member.name.bytes(), state) {
        None => {
            state.note(Kind::NoMember, member.at.token);
            false
        }
        Some(is_pointed) => is_pointed,
    }
}

/// Whether a member is a scalar behind `->`, which an element of its view parameter stands for.
pub fn pointed_at(
    object: &Identifier,
    mark: MemberMark,
    mark_at: Position,
    member: &Identifier,
    state: &mut State<'_>,
) -> bool
    ensures pointed { (result, state.new) ≡ pointed object.now mark mark_at member.now state.old }
{
    match structure_wanted(state.meaning(object.name.bytes()), mark) {
        None => {
            state.note(Kind::StructKind, mark_at.token);
            false
        }
        Some(None) => false,
        Some(Some(number)) => pointed_among(number, mark, member, state),
    }
}

/// What stands for `v.m` and `p->m`.
pub fn member_spot(
    object: &Identifier,
    mark_at: Position,
    member: &Identifier,
    is_pointed: bool,
    alloc: Global,
) -> Result<SpotKind<Boxed<Expr>>, NoMemory>
    ensures kind { IfOk result (λ kind. kind ≡ member_kind {E = tree} object.now mark_at member.now is_pointed) }
{
    let name = name_of_member(object, member.name.bytes(), alloc)?;
    if is_pointed {
        return Ok(SpotKind::Pointed {
            star: mark_at,
            name,
        });
    }
    Ok(SpotKind::Scalar { name })
}

/// `&` before a spot: where that is `*p`, p itself.
pub fn address_of(at: Position, spot: Spot<Boxed<Expr>>) -> Expr
    ensures address { result ≡ addressed at spot }
{
    let spot_at = spot.at;
    match spot.kind {
        SpotKind::Pointed { name, .. } => Expr::Spot(Spot {
            at,
            kind: SpotKind::Scalar { name },
        }),
        SpotKind::Scalar { name } => Expr::Address {
            at,
            spot: Spot {
                at: spot_at,
                kind: SpotKind::Scalar { name },
            },
        },
        SpotKind::Element {
            name,
            bracket,
            index,
        } => Expr::Address {
            at,
            spot: Spot {
                at: spot_at,
                kind: SpotKind::Element {
                    name,
                    bracket,
                    index,
                },
            },
        },
        SpotKind::Member {
            object,
            mark,
            mark_at,
            member,
        } => Expr::Address {
            at,
            spot: Spot {
                at: spot_at,
                kind: SpotKind::Member {
                    object,
                    mark,
                    mark_at,
                    member,
                },
            },
        },
        SpotKind::MemberElement {
            object,
            mark,
            mark_at,
            member,
            bracket,
            index,
        } => Expr::Address {
            at,
            spot: Spot {
                at: spot_at,
                kind: SpotKind::MemberElement {
                    object,
                    mark,
                    mark_at,
                    member,
                    bracket,
                    index,
                },
            },
        },
    }
}

/// Whether the view of a member is the address of a scalar.
fn is_scalar_address(is_address: bool, member: &Member<'_>) -> bool
    ensures address { result ≡ (is_address && is_none member.now.bracket) }
{
    if is_address {
        return member.bracket().is_none();
    }
    false
}

/// The view of a member that an argument hands on, at the first token of the argument.
fn view_of(
    at: Position,
    named: Named<'_>,
    member: &Member<'_>,
    alloc: Global,
) -> Result<Expr, NoMemory>
    ensures view { IfOk result (λ view. view ≡ member_argument at (plain_named named.entry) member.now) }
{
    let name = name_of_member(named.name, member.name().name.bytes(), alloc)?;
    let kind = SpotKind::Scalar { name };
    if is_scalar_address(named.is_address, member) {
        let spot_at = named.name.at;
        return Ok(Expr::Address {
            at,
            spot: Spot { at: spot_at, kind },
        });
    }
    Ok(Expr::Spot(Spot { at, kind }))
}

/// The views of all members, behind the arguments so far.
pub fn hand_on(
    at: Position,
    named: Named<'_>,
    members: &[Member<'_>],
    done: &mut Items<Expr>,
    alloc: Global,
) -> Result<(), NoMemory>
    ensures handed { OnOk result (done.new ≡ all_behind (member_argument at (plain_named named.entry)) done.old members.now) }
{
    for member in members {
        done.push(view_of(at, named, member, alloc)?)?;
    }
    Ok(())
}
