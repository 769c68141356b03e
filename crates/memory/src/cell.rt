// What memory holds: objects in slots, and bytes. Both parts are read, written and taken by the same code.
ghost use Rattle.std.specs.Prelude.{◌≡◌, ℕ, length, slice_get, slice_set};
ghost use Rattle.std.specs.Option.{ok_or};
ghost use Rattle.objects.specs.declared.fault.Fault.TheVariants.{RangeCheck};
ghost use Rattle.std.proofs.Common.{rules};
ghost use Rattle.memory.specs.Memories.{InUse, Part, Lawful, slots, bytes, run_topped};

use crate::memory::Memory;
use crate::run::Run;
use keepers::keeper::Keeper;
use objects::fault::Fault;
use objects::object::Object;

// `part` says which part of memory the cells make up.
pub trait Cell: Copy + Default {
    ghost part: { Part Self };

    // How many cells the keeper has.
    fn count<K: Keeper>(keeper: &K) -> usize
        ensures { result ≡ length (part.cells (K.Keeper.kept keeper.now)) };

    fn get<K: Keeper>(keeper: &K, at: usize) -> Result<Self, Fault>
        ensures { result ≡ ok_or (slice_get (part.cells (K.Keeper.kept keeper.now)) at) RangeCheck };

    // Past the end nothing is put.
    fn put<K: Keeper>(keeper: &mut K, at: usize, cell: Self)
        ensures { K.Keeper.kept keeper.new ≡ part.with_cells (slice_set (part.cells (K.Keeper.kept keeper.old)) at cell) (K.Keeper.kept keeper.old) };

    // How many cells are in use.
    fn top<K: Keeper>(memory: &Memory<K>) -> u16
        ensures { result ≡ part.top memory.now };

    // Which run's top that is. Only `Memory` sets it.
    fn run() -> Run
        ensures { (t : ℕ) (m : InUse) → part.with_top t m ≡ run_topped result t m };

    // A cell that is taken and not yet written holds the default.
    ghost empty: { (x : Self) → Self.is_default x → x ≡ part.empty };

    ghost laws: { Lawful part };
}

impl Cell for Object {
    ghost part = { slots };

    ghost empty = { Prim.search rules };

    ghost laws = { Prim.search rules };

    fn count<K: Keeper>(keeper: &K) -> usize {
        keeper.slot_count()
    }

    fn get<K: Keeper>(keeper: &K, at: usize) -> Result<Object, Fault> {
        keeper.slot(at)
    }

    fn put<K: Keeper>(keeper: &mut K, at: usize, cell: Object) {
        let _ = keeper.put_slot(at, cell);
    }

    fn top<K: Keeper>(memory: &Memory<K>) -> u16 {
        memory.slot_top
    }

    fn run() -> Run {
        Run::Slots
    }
}

impl Cell for u8 {
    ghost part = { bytes };

    ghost empty = { Prim.search rules };

    ghost laws = { Prim.search rules };

    fn count<K: Keeper>(keeper: &K) -> usize {
        keeper.byte_count()
    }

    fn get<K: Keeper>(keeper: &K, at: usize) -> Result<u8, Fault> {
        keeper.byte(at)
    }

    fn put<K: Keeper>(keeper: &mut K, at: usize, cell: u8) {
        let _ = keeper.put_byte(at, cell);
    }

    fn top<K: Keeper>(memory: &Memory<K>) -> u16 {
        memory.byte_top
    }

    fn run() -> Run {
        Run::Bytes
    }
}
