//! What a port in memory knows of each name, in a chain of nodes that grows by nodes made elsewhere.

ghost use Rattle.std.specs.Prelude.{◌≡◌, ◌∷◌, ◌++◌, [], true, false, ◌||◌, All, None, Some, is_some, IfOk, IsSome, OnOk, MatchOption, if◌then◌else◌};
ghost use Rattle.std.specs.Option.{option_map};
ghost use Rattle.std.specs.Ordering.{nat_cmp};
ghost use Rattle.std.specs.Cmp.Lexicographic.{slice_cmp};
ghost use Rattle.hr_base.specs.declared.name.ChunkName.{ChunkName};
ghost use Rattle.dir_files.specs.Files.{FileState, new_file, named_file};
ghost use Rattle.dir_files.specs.Ports.{IsListing, either_file};
ghost use Rattle.mem_folder.specs.Links.{slots_of, IsTidy};
ghost use Rattle.mem_folder.specs.Crashes.{LeavesSlots};
ghost use Rattle.mem_folder.specs.Durables.{durable_file};
ghost use Rattle.mem_folder.specs.Lists.{image_of, HoldsImage};
ghost use Rattle.mem_folder.specs.Picks.{draw_at, next_pick, left_of};
ghost use Rattle.mem_folder.specs.Memory.{blank, resting_entry, created_entry, returned_entry, removed_entry, lent_entry, joined, synced_entry, entry_at, has_name, ChangesEntry, Merges, synced_slots, held_names, memory_port};
ghost use Rattle.hr_base.specs.NameTests.{is_name};
ghost use Rattle.hr_base.specs.Names.{IsChunkName, name_text};
ghost use Rattle.mem_folder.specs.Orders.{ComesBefore};

use crate::content::Content;
use crate::picks;
use hr_base::{ChunkName, Pick};
use std::alloc::{AllocError, Global};
use std::cmp::Ordering;
use std::marker::Model;

/// What a port knows of one name.
#[derive(Debug, Drop)]
pub struct Entry {
    /// The file, where it lies here.
    pub held: Option<Content>,
    /// The file, where it was removed since the last directory sync.
    pub gone: Option<Content>,
    /// A handle was given out here.
    pub lent: bool,
    /// A handle came back that was given out elsewhere.
    pub foreign: bool,
    /// The name was created here since the last directory sync.
    pub created: bool,
    /// The name is lent, and was created here before the last directory sync.
    pub fixed: bool,
}

/// A name, and what a port knows of it.
#[derive(Debug, Drop)]
pub struct Slot {
    pub name: ChunkName,
    pub entry: Entry,
}

/// The names that a port knows, each once, in the order of their texts.
#[cycle(chain)]
#[derive(Debug, Drop)]
pub struct Chain {
    link: Link,
}

#[cycle(chain)]
#[derive(Debug, Drop)]
enum Link {
    End,
    More(Slot, Box<Chain>),
}

impl Model for Chain {
    ghost use Rattle.std.specs.Prelude.{List, ℕ, length};
    ghost use Rattle.mem_folder.specs.declared.chain.Slot.{Slot};

    ghost Value = { List Slot };

    ghost use Rattle.mem_folder.specs.Links.{slots_of, IsTidy};

    ghost view = { λ a. slots_of a.link };

    ghost invariant = { λ a. IsTidy a.link };

    ghost size = { length };

    ghost use Rattle.std.proofs.Common.{arith, length-append};

    ghost size_decreases = { λ a h. Prim.grind (arith, length-append) };
}

/// Whether the names are the same.
fn is_same(first: ChunkName, second: ChunkName) -> bool
    ensures { result ≡ is_name first second }
{
    first == second
}

/// How the texts of two names compare.
fn order_of(first: ChunkName, second: ChunkName) -> Ordering
    requires first { IsChunkName first }
    requires second { IsChunkName second }
    ensures { result ≡ slice_cmp nat_cmp (name_text first) (name_text second) }
{
    first.cmp(&second)
}

/// The first file, or the second where there is no first.
fn either(first: Option<Content>, second: Option<Content>) -> Option<Content>
    ensures { result ≡ either_file first second }
{
    match first {
        Some(content) => Some(content),
        None => second,
    }
}

/// The first file, or the second where there is no first and nothing came in its place.
fn either_unless(replaced: bool, first: Option<Content>, second: Option<Content>) -> Option<Content>
    ensures { result ≡ (if replaced then first else either_file first second) }
{
    if replaced {
        first
    } else {
        either(first, second)
    }
}

/// What a crash leaves of the files of a name.
fn left_of(pick: Pick, held: Option<Content>, gone: Option<Content>) -> Option<Content>
    ensures { result ≡ option_map durable_file (left_of pick (draw_at pick 0) held gone) }
{
    let draw = picks::first_draw(pick);
    match held {
        Some(content) => {
            let named = content.is_named();
            content.crash(pick, draw, named)
        }
        None => match gone {
            Some(content) => content.crash(pick, draw, false),
            None => None,
        },
    }
}

impl Entry {
    /// Of a name of which nothing is known but its file.
    pub fn resting(held: Option<Content>) -> Entry
        ensures { result ≡ resting_entry held }
    {
        Entry {
            held,
            gone: None,
            lent: false,
            foreign: false,
            created: false,
            fixed: false,
        }
    }

    /// Of a name whose handle has just been given out, for a new file.
    pub fn created() -> Entry
        ensures { result ≡ created_entry }
    {
        Entry {
            held: None,
            gone: None,
            lent: true,
            foreign: false,
            created: true,
            fixed: false,
        }
    }

    /// Of a name whose handle comes back with this file.
    pub fn returned(content: Content) -> Entry
        ensures { result ≡ returned_entry content }
    {
        Entry {
            held: Some(content),
            gone: None,
            lent: false,
            foreign: true,
            created: false,
            fixed: false,
        }
    }

    /// Of a name whose handle comes back, and whose file was removed.
    pub fn removed(content: Content) -> Entry
        ensures { result ≡ removed_entry content }
    {
        Entry {
            held: None,
            gone: Some(content),
            lent: false,
            foreign: true,
            created: false,
            fixed: false,
        }
    }

    /// Gives out the held file.
    pub fn lend(&mut self) -> Content
        requires { IsSome self.old.held }
        ensures content { Some result ≡ self.old.held }
        ensures lent { self.new ≡ lent_entry self.old }
    {
        let content = self.held.take().unwrap();
        self.lent = true;
        content
    }

    /// Takes in what is known of the name elsewhere, or has just become known.
    pub fn join(&mut self, newer: Entry)
        ensures { self.new ≡ joined newer self.old }
    {
        let Entry {
            held,
            gone,
            lent,
            foreign,
            created,
            fixed,
        } = newer;
        let came = held.is_some();
        self.held = either_unless(gone.is_some(), held, self.held.take());
        self.gone = either_unless(came, gone, self.gone.take());
        self.created = created || self.created;
        self.fixed = fixed && !self.foreign || self.fixed && !foreign;
        let here = self.lent;
        self.lent = lent && !self.foreign || here && !foreign;
        self.foreign = foreign && !here || self.foreign && !lent;
    }

    /// Makes the entry what a crash leaves of it, and gives the pick for the names behind. A name draws where a file of it
    /// is held or gone.
    pub fn crash(&mut self, pick: Pick) -> Pick
        ensures left { self.new ≡ resting_entry (option_map durable_file (left_of pick (draw_at pick 0) self.old.held self.old.gone)) }
        ensures pick { result ≡ (if is_some self.old.held || is_some self.old.gone then next_pick pick else pick) }
    {
        let draws = self.held.is_some() || self.gone.is_some();
        *self = Entry::resting(left_of(pick, self.held.take(), self.gone.take()));
        if draws { picks::next_pick(pick) } else { pick }
    }

    /// Makes the name durable, and its removal too.
    pub fn sync(&mut self)
        ensures { self.new ≡ synced_entry self.old }
    {
        if let Some(content) = &mut self.held {
            content.fix_name();
        }
        self.gone = None;
        self.fixed = self.fixed || self.created && self.lent;
        self.created = false;
    }
}

impl Chain {
    /// A chain that knows no name.
    pub fn empty() -> Chain
        ensures { result ≡ [] }
    {
        Chain { link: Link::End }
    }

    /// A chain that holds these files, each of them durable. The first file of a name counts.
    pub fn of(alloc: Global, mut files: Vec<(ChunkName, Vec<u8>)>) -> Result<Chain, AllocError>
        requires { All (λ file. IsChunkName file.0) files.items }
        ensures { IfOk result (λ chain. HoldsImage chain (image_of files.items)) }
    {
        let mut chain = Chain::empty();
        while let Some((name, bytes)) = files.pop() {
            let node = Chain::spare(alloc)?;
            let entry = Entry::resting(Some(Content::durable(bytes)));
            chain.merge(Slot { name, entry }, node);
        }
        Ok(chain)
    }

    /// A node for a chain to grow by.
    pub fn spare(alloc: Global) -> Result<Box<Chain>, AllocError>
        ensures { IfOk result (λ node. node.value ≡ []) }
    {
        let node = Box::new(alloc, Chain::empty())?;
        Ok(node)
    }

    /// What is known of a name, where it is.
    pub fn entry(&self, name: ChunkName) -> Option<&Entry>
        ensures { MatchOption result (entry_at self.now name ≡ blank) (λ entry. entry.now ≡ entry_at self.now name) }
    {
        match &self.link {
            Link::End => None,
            Link::More(slot, rest) => {
                if is_same(name, slot.name) {
                    Some(&slot.entry)
                } else {
                    rest.entry(name)
                }
            }
        }
    }

    /// Whether the name is lent, and was created here before the last directory sync.
    pub fn is_fixed(&self, name: ChunkName) -> bool
        ensures { result ≡ (entry_at self.now name).fixed }
    {
        match self.entry(name) {
            None => false,
            Some(entry) => entry.fixed,
        }
    }

    /// Puts a node in front.
    fn begin_with(&mut self, slot: Slot, mut spare: Box<Chain>)
        requires valid { IsChunkName slot.name }
        requires first { (other : ChunkName) → has_name self.old other ≡ true → ComesBefore slot.name other }
        ensures { self.new ≡ slot ∷ self.old }
    {
        *spare = std::mem::replace(self, Chain::empty());
        self.link = Link::More(slot, spare);
    }

    /// Takes in what is known of a name. The spare node is used where the name was not known.
    pub fn merge(&mut self, slot: Slot, spare: Box<Chain>)
        requires { IsChunkName slot.name }
        ensures { Merges self.old self.new slot }
    {
        match &mut self.link {
            Link::End => self.begin_with(slot, spare),
            Link::More(known, rest) => match order_of(slot.name, known.name) {
                Ordering::Less => self.begin_with(slot, spare),
                Ordering::Equal => known.entry.join(slot.entry),
                Ordering::Greater => rest.merge(slot, spare),
            },
        }
    }

    /// Gives out the held file of a name.
    pub fn lend(&mut self, name: ChunkName) -> Content
        requires { IsSome (entry_at self.old name).held }
        ensures content { Some result ≡ (entry_at self.old name).held }
        ensures lent { ChangesEntry self.old self.new name (lent_entry (entry_at self.old name)) }
    {
        match &mut self.link {
            Link::End => unreachable!(),
            Link::More(slot, rest) => {
                if is_same(name, slot.name) {
                    slot.entry.lend()
                } else {
                    rest.lend(name)
                }
            }
        }
    }

    /// Whether a handle of some name is out.
    pub fn lends(&self) -> bool
        ensures some { result ≡ true → (name : ChunkName) × ((entry_at self.now name).lent ≡ true) }
        ensures none { result ≡ false → (name : ChunkName) → (entry_at self.now name).lent ≡ false }
    {
        match &self.link {
            Link::End => false,
            Link::More(slot, rest) => slot.entry.lent || rest.lends(),
        }
    }

    /// Takes in all that another chain knows.
    pub fn absorb(&mut self, newer: Chain)
        ensures { (name : ChunkName) → entry_at self.new name ≡ joined (entry_at newer name) (entry_at self.old name) }
    {
        match newer.link {
            Link::End => {}
            Link::More(slot, mut rest) => {
                let others = std::mem::replace(&mut *rest, Chain::empty());
                self.merge(slot, rest);
                self.absorb(others);
            }
        }
    }

    /// Makes of every name what a crash leaves of it.
    pub fn crash(&mut self, pick: Pick)
        ensures { LeavesSlots pick self.old self.new }
    {
        match &mut self.link {
            Link::End => {}
            Link::More(slot, rest) => {
                let behind = slot.entry.crash(pick);
                rest.crash(behind);
            }
        }
    }

    /// Makes every name durable.
    pub fn sync(&mut self)
        ensures { self.new ≡ synced_slots self.old }
    {
        match &mut self.link {
            Link::End => {}
            Link::More(slot, rest) => {
                slot.entry.sync();
                rest.sync();
            }
        }
    }

    /// Adds the names of the held files.
    pub fn list(&self, names: &mut Vec<ChunkName>) -> Result<(), AllocError>
        ensures added { OnOk result (names.new.items ≡ names.old.items ++ held_names self.now) }
        ensures listing { OnOk result (IsListing (memory_port self.now) (held_names self.now)) }
    {
        match &self.link {
            Link::End => Ok(()),
            Link::More(slot, rest) => {
                if slot.entry.held.is_some() {
                    names.push(slot.name)?;
                }
                rest.list(names)
            }
        }
    }
}
