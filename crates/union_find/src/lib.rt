//! A union-find whose links carry elements of a group: facts "member i is member j moved by g", over a lent table of links.
#![tactic(auto)]

ghost use Rattle.std.specs.Prelude.{◌≡◌, ◌<◌, ◌≤◌, ◌≢◌, List, [], length, replicate, MatchOption, MatchResult, OnOk};
ghost use Rattle.union_find.specs.Facts.{members, Fact, Chain, Among};
ghost use Rattle.union_find.specs.Tables.{Linked, Root, Way, EachLifted, Hung, Keeps, across as across_of, root_link as root_entry};
ghost use Rattle.union_find.specs.Calls.{Accepts, Refuses, refused, Opened, Tells, Answers, After, facts_after, OneTelling, OneAnswer};

mod lawful;
pub mod link;

use groups::Group;
use lawful::Lawful;
use link::{Link, Related, Up};
use refusals::{Reason, Refusal};

/// Members are numbered from 0 to MEMBERS - 1.
pub const MEMBERS: usize = 256;

/// The entry of a member of which nothing is said: a table to be opened may be made of it.
pub fn root_link<G: Group>() -> Link<G>
    ensures { result ≡ root_entry G.Group }
{
    Link {
        // No member is greater, so this says nothing.
        parent: u8::MAX,
        step: G::identity(),
    }
}

fn member(i: usize) -> Result<u8, Reason>
    ensures { MatchResult result (λ m. m ≡ i) (λ e. (members ≤ i) × (e ≡ Reason.Stranger)) }
{
    u8::try_from(i).map_err(|_| Reason::Stranger)
}

// Members i and j of a table of n entries.
fn pair(n: usize, i: usize, j: usize) -> Result<(u8, u8), Reason>
    ensures { MatchResult result (λ p. Accepts n i j (Unit {0}) × (p.0 ≡ i) × (p.1 ≡ j)) (λ e. Refuses n i j (Unit {0}) (refused e)) }
{
    if n < MEMBERS {
        return Err(Reason::Short);
    }
    Ok((member(i)?, member(j)?))
}

// What the table says of member i, if it says something.
fn link_of<G: Group>(table: &[Link<G>], i: u8) -> Option<Up<G>>
    ensures { MatchOption result (Root G.Group table.now i) (λ u. Linked G.Group table.now i u.parent u.step) }
{
    let link = *table.get(usize::from(i))?;
    if link.parent < i { link.up() } else { None }
}

// The way up from member i, taken together: a link to its root. In a table that was opened the loop makes no turn.
fn climb<G: Group>(table: &[Link<G>], i: u8) -> Up<G>
    ensures way { Way G.Group table.now i result.parent result.step }
    ensures root { Root G.Group table.now result.parent }
{
    let Some(mut way) = link_of(table, i) else {
        return Up {
            parent: i,
            step: Lawful::identity(),
        };
    };
    while let Some(next) = link_of(table, way.parent) {
        way = way.then(&next);
    }
    way
}

// The move that makes a member of another, where their ways up meet.
fn between<G: Group>(a: &Up<G>, b: &Up<G>) -> G
    ensures { result ≡ G.compose a.now.step (G.inverse b.now.step) }
{
    a.step.compose(&b.step.inverse()).get()
}

// What hangs by a, of the entries after a's own, goes up one link more.
fn lift<G: Group>(entries: &mut [Link<G>], a: u8, up: &Up<G>)
    ensures { EachLifted G.Group entries.old entries.new a up.now.parent up.now.step }
{
    for link in entries.iter_mut() {
        if let Some(lifted) = link.lifted(a, up) {
            *link = lifted;
        }
    }
}

// Hangs the root a by a smaller member, and by that also all that hung by a: so every way up stays one link long.
// Never inlined: within `relate` its loop was measured to take half as long again.
#[inline(never)]
fn hang<G: Group>(table: &mut [Link<G>], a: u8, up: &Up<G>)
    requires room { members ≤ length table.old }
    requires lower { up.now.parent < a }
    ensures { Hung G.Group table.old table.new a up.now.parent up.now.step }
{
    lift(&mut table[usize::from(a) + 1..MEMBERS], a, up);
    table[usize::from(a)] = up.link();
}

// The move that makes the root a of the root b, where what hangs by a is what hangs by b moved by g.
fn across<G: Group>(a: &Up<G>, b: &Up<G>, g: &Lawful<G>) -> Lawful<G>
    ensures { result ≡ across_of G.Group a.now.step g.now b.now.step }
{
    a.step.inverse().compose(&g.compose(&b.step))
}

// Joins the classes of two roots: the greater is hung by the smaller.
fn join<G: Group>(table: &mut [Link<G>], a: &Up<G>, b: &Up<G>, g: &Lawful<G>)
    requires room { members ≤ length table.old }
    requires apart { a.now.parent ≢ b.now.parent }
    ensures left { b.now.parent < a.now.parent → Hung G.Group table.old table.new a.now.parent b.now.parent (across_of G.Group a.now.step g.now b.now.step) }
    ensures right { a.now.parent < b.now.parent → Hung G.Group table.old table.new b.now.parent a.now.parent (G.inverse (across_of G.Group a.now.step g.now b.now.step)) }
{
    let step = across(a, b, g);
    if b.parent < a.parent {
        let parent = b.parent;
        hang(table, a.parent, &Up { parent, step });
    } else {
        let (parent, step) = (a.parent, step.inverse());
        hang(table, b.parent, &Up { parent, step });
    }
}

// Says nothing of the members with these entries. `fill` asks that `clone` cannot fail, which is not known of a group.
fn clear<G: Group>(entries: &mut [Link<G>])
    ensures { entries.new ≡ replicate (length entries.old) (root_entry G.Group) }
{
    for link in entries.iter_mut() {
        *link = root_link();
    }
}

/// Opens the table: it has no facts then. Entries past the members are left.
pub fn open<G: Group>(table: &mut [Link<G>]) -> Result<(), Refusal>
    ensures facts { OnOk result (Keeps G.Group [] table.new) }
    ensures table { Opened G.Group table.old table.new result }
{
    if table.len() < MEMBERS {
        return Err(Reason::Short.into());
    }
    clear(&mut table[..MEMBERS]);
    Ok(())
}

/// The composite of the moves along a chain of facts from i to j, or nothing where there is no chain.
pub fn relation<G: Group>(table: &[Link<G>], i: usize, j: usize) -> Result<Option<G>, Refusal>
    ensures facts { (fs : List (Fact G)) → Keeps G.Group fs table.now → Tells (Chain G.Group (Among fs) i j) (length table.now) i j result }
    ensures table { Tells (Chain G.Group (Linked G.Group table.now) i j) (length table.now) i j result }
    ensures one { OneTelling (Chain G.Group (Linked G.Group table.now) i j) (length table.now) i j }
{
    let (i, j) = pair(table.len(), i, j)?;
    let a = climb(table, i);
    let b = climb(table, j);
    if a.parent == b.parent {
        Ok(Some(between(&a, &b)))
    } else {
        Ok(None)
    }
}

/// Learns that i is j moved by g, unless the facts learned before tell of i and j.
pub fn relate<G: Group>(
    table: &mut [Link<G>],
    i: usize,
    j: usize,
    g: G,
) -> Result<Related<G>, Refusal>
    ensures facts { (fs : List (Fact G)) → Keeps G.Group fs table.old → Answers G.Group (Chain G.Group (Among fs) i j) (length table.old) i j g result × Keeps G.Group (facts_after fs i j g result) table.new }
    ensures table { Answers G.Group (Chain G.Group (Linked G.Group table.old) i j) (length table.old) i j g result × After G.Group table.old table.new i j g result }
    ensures one { OneAnswer G.Group (Chain G.Group (Linked G.Group table.old) i j) (length table.old) i j g }
{
    let (i, j) = pair(table.len(), i, j)?;
    let said = Lawful::of(g).ok_or(Reason::Unlawful)?;
    let a = climb(table, i);
    let b = climb(table, j);
    if a.parent == b.parent {
        let told = between(&a, &b);
        if told.equals(g) {
            return Ok(Related::Known);
        }
        return Ok(Related::Clash(told));
    }
    join(table, &a, &b, &said);
    Ok(Related::New)
}
