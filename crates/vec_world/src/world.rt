//! The world of the machine, and what each step does to it.
ghost use Rattle.std.specs.Prelude.{◌≡◌, ◌^◌, ◌<◌, max, length, IfOk, OnOk, OnErr, slice_get, slice_set, Option, option_map};
ghost use Rattle.vec_world.specs.declared.step.Step.TheVariants.{Store, Commit, Load, LoadCount, Split, Join};
ghost use Rattle.vec_world.specs.Log.{FitsHalf};
ghost use Rattle.vec_world.specs.World.{start, act, is_open, with_learned};

use crate::word::{stamp_of, word_of};
use crate::{Items, NoMemory, Step};
use std::alloc::Global;

/// The words of a vector, what was committed, and what each pass knows.
#[derive(Drop)]
pub struct World {
    /// The words: 32 bits of the vector in the lower half of each, and a stamp in the upper half.
    pub words: Items<u64>,
    /// The number that was committed last, 0 at the start.
    pub count: u32,
    /// The number in flight, 0 where there is none.
    pub flying: u32,
    /// The stores and commits that acted, the oldest first.
    pub log: Items<Step>,
    /// The number that each pass knows: the greatest that it has seen or was told.
    pub known: Items<u32>,
    /// The notes that passes wrote, the newest last.
    pub notes: Items<u32>,
}

impl World {
    /// The world before any step.
    pub(crate) fn start(alloc: Global, words: u32, passes: u8) -> Result<World, NoMemory>
        ensures { IfOk result (λ world. world ≡ start words passes) }
    {
        Ok(World {
            words: Items::from_vec(vec![in alloc; 0u64; words as usize]?),
            count: 0,
            flying: 0,
            log: Items::from_vec(Vec::new(alloc)),
            known: Items::from_vec(vec![in alloc; 0u32; usize::from(passes)]?),
            notes: Items::from_vec(Vec::new(alloc)),
        })
    }

    /// Does one step, where it can act.
    pub(crate) fn act(&mut self, step: Step) -> Result<(), NoMemory>
        ensures ok { OnOk result (self.new ≡ act self.old step) }
        ensures err { OnErr result (self.new ≡ self.old) }

        // The step's own type says so; whoever runs a list of steps learns it here.
        ensures fits { FitsHalf step }
    {
        match step {
            Step::Store { word, bits, stamp } => self.store(word, bits, stamp),
            Step::Commit { number } => self.commit(number),
            Step::Load { pass, word } => {
                self.load(pass, word);
                Ok(())
            }
            Step::LoadCount { pass } => {
                self.learn(pass, self.count);
                Ok(())
            }
            Step::Split { pass } => self.split(pass),
            Step::Join { into } => {
                self.join(into);
                Ok(())
            }
        }
    }

    /// Whether a change of this number may go on: it is above the count, and is the one in flight
    /// if there is one.
    fn is_open(&self, number: u32) -> bool
        ensures { result ≡ is_open self.now number }
    {
        self.count < number && (self.flying == 0 || self.flying == number)
    }

    /// Puts bits and stamp into the word and logs that, where the stamp is open and isn't the
    /// word's already.
    fn store(&mut self, word: u32, bits: u32, stamp: u32) -> Result<(), NoMemory>
        ensures ok { OnOk result (self.new ≡ act self.old (Store word bits stamp)) }
        ensures err { OnErr result (self.new ≡ self.old) }
        ensures fits { bits < 2 ^ 32 }
    {
        let at = word as usize;
        let Some(old) = self.words.get(at) else {
            return Ok(());
        };
        if self.is_open(stamp) && stamp_of(old) != stamp {
            self.log.push(Step::Store { word, bits, stamp })?;
            self.words.set(at, word_of(bits, stamp));
            self.flying = stamp;
        }
        Ok(())
    }

    /// Makes the number the count and logs that, where it is open.
    fn commit(&mut self, number: u32) -> Result<(), NoMemory>
        ensures ok { OnOk result (self.new ≡ act self.old (Commit number)) }
        ensures err { OnErr result (self.new ≡ self.old) }
    {
        if self.is_open(number) {
            self.log.push(Step::Commit { number })?;
            self.count = number;
            self.flying = 0;
        }
        Ok(())
    }

    /// Tells the pass the word's stamp.
    fn load(&mut self, pass: u8, word: u32)
        ensures { self.new ≡ act self.old (Load pass word) }
    {
        if let Some(found) = self.words.get(word as usize) {
            self.learn(pass, stamp_of(found));
        }
    }

    /// Raises what the pass knows to this number, where there is such a pass.
    fn learn(&mut self, pass: u8, number: u32)
        ensures { self.new ≡ with_learned self.old pass number }
    {
        let at = usize::from(pass);
        if let Some(known) = self.known.get(at) {
            self.known.set(at, known.max(number));
        }
    }

    /// Writes down what the pass knows.
    fn split(&mut self, pass: u8) -> Result<(), NoMemory>
        ensures ok { OnOk result (self.new ≡ act self.old (Split pass)) }
        ensures err { OnErr result (self.new ≡ self.old) }
    {
        match self.known.get(usize::from(pass)) {
            Some(known) => self.notes.push(known),
            None => Ok(()),
        }
    }

    /// Takes the newest note away and tells it to the pass, where there is a note and such a pass.
    fn join(&mut self, into: u8)
        ensures { self.new ≡ act self.old (Join into) }
    {
        if usize::from(into) < self.known.len() {
            if let Some(note) = self.notes.pop() {
                self.learn(into, note);
            }
        }
    }
}
