//! Laws of manifests. Each is the contract of a function that has nothing to do.
ghost use Rattle.std.specs.Prelude.{◌≡◌, ℕ, List, Some};
ghost use Rattle.explorer_model.specs.declared.archive.Batch.{Batch};
ghost use Rattle.explorer_model.specs.declared.store.LogFault.{LogFault};
ghost use Rattle.record_log.specs.Log.{Log, Adds, IsNotAdded};
ghost use Rattle.record_log.specs.declared.fault.AppendFault.TheVariants as append;
ghost use Rattle.record_log.specs.declared.fault.OpenFault.TheVariants as opening;
ghost use Rattle.manifest.specs.First.{HasFirstJournal, IsWithinFirst, IsNotOpenedFirst};
ghost use Rattle.manifest.specs.Manifest.{IsManifestOf, IsOpened, IsNotOpened};

use disk_model::Disk;

/// Where the disk tells its content, a manifest has one journal.
pub fn journal_is_determined<D: Disk>()
    ensures { (manifest : Log D) (file : List ℕ) (journal other : List Batch)
        → (D.disk manifest.disk).content ≡ Some file
        → IsManifestOf D.disk D.left_since journal manifest
        → IsManifestOf D.disk D.left_since other manifest → journal ≡ other }
{}

/// Where a disk tells its content, an opening of it has one answer, unless a call of the disk fails
/// or memory is wanting: this journal behind this gate, or this fault.
pub fn opening_is_determined<D: Disk>()
    ensures opened { (disk : D) (file : List ℕ) (journal other : List Batch)
        (manifest after : Log D) → (D.disk disk).content ≡ Some file
        → IsOpened D.disk D.left_since journal disk manifest
        → IsOpened D.disk D.left_since other disk after
        → (journal ≡ other) × (manifest.gate ≡ after.gate) }
    ensures refused { (disk back after : D) (file : List ℕ) (fault other : LogFault)
        → (D.disk disk).content ≡ Some file
        → IsNotOpened D.disk (opening.Log fault) disk back
        → IsNotOpened D.disk (opening.Log other) disk after → fault ≡ other }
    ensures either { (disk back : D) (file : List ℕ) (journal : List Batch) (manifest : Log D)
        (fault : LogFault) → (D.disk disk).content ≡ Some file
        → IsOpened D.disk D.left_since journal disk manifest
        → IsNotOpened D.disk (opening.Log fault) disk back → ⊥ }
{}

/// Where a disk tells its content, an opening of it in the first format has one answer, unless a
/// call of the disk fails or memory is wanting: this journal, or this fault.
pub fn first_opening_is_determined<D: Disk>()
    ensures opened { (file : List ℕ) (journal other : List Batch)
        → HasFirstJournal journal file → HasFirstJournal other file → journal ≡ other }
    ensures refused { (disk back after : D) (file : List ℕ) (fault other : LogFault)
        → (D.disk disk).content ≡ Some file
        → IsNotOpenedFirst D.disk (opening.Log fault) disk back
        → IsNotOpenedFirst D.disk (opening.Log other) disk after → fault ≡ other }
    ensures either { (disk back : D) (file : List ℕ) (journal : List Batch)
        (fault : LogFault) → (D.disk disk).content ≡ Some file
        → HasFirstJournal journal file → IsWithinFirst journal
        → IsNotOpenedFirst D.disk (opening.Log fault) disk back → ⊥ }
{}

/// A store has one answer, unless a call of the disk fails or memory is wanting: the next gate, or
/// the counts with which the manifest was closed.
pub fn storing_is_determined<D: Disk>()
    ensures stored { (count : ℕ) (old new after : Log D)
        → Adds D.disk count old new → Adds D.disk count old after
        → (new.gate ≡ after.gate) × (new.format ≡ after.format) × (new.fault ≡ after.fault) }
    ensures closed { (before after earlier later : ℕ) (old new other : Log D)
        → IsNotAdded D.disk (append.Closed before after) old new
        → IsNotAdded D.disk (append.Closed earlier later) old other
        → (before ≡ earlier) × (after ≡ later) × (new ≡ other) }
    ensures either { (before after count : ℕ) (old new other : Log D)
        → IsNotAdded D.disk (append.Closed before after) old new
        → Adds D.disk count old other → ⊥ }
{}
