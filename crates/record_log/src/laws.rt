//! Laws of logs. Each is the contract of a function that has nothing to do.
ghost use Rattle.std.specs.Prelude.{◌≡◌, [], ℕ, List, Some};
ghost use Rattle.explorer_model.specs.declared.store.LogFault.{LogFault};
ghost use Rattle.disk_model.specs.Disk.{LeavesOnly, Torn};
ghost use Rattle.record_log.specs.Log.{Log, EachImage, IsLogOf, IsTornOf, IsCreated, IsNotCreated, IsOpened, IsNotOpened};
ghost use Rattle.record_log.specs.declared.format.Format.{Format as AFormat};
ghost use Rattle.record_log.specs.declared.fault.CreateFault.TheVariants as create;
ghost use Rattle.record_log.specs.declared.fault.OpenFault.TheVariants as opening;

use disk_model::Disk;

/// Where the disk tells its content, a log holds one list of payloads.
pub fn payloads_are_determined<D: Disk>()
    ensures { (log : Log D) (file : List ℕ) (payloads others : List (List ℕ))
        → (D.disk log.disk).content ≡ Some file
        → IsLogOf D.disk D.left_since payloads log → IsLogOf D.disk D.left_since others log
        → payloads ≡ others }
{}

/// A creation has one answer, unless a call of the disk fails: a log that is the same but for its
/// disk, or the size of what is there.
pub fn creating_is_determined<D: Disk>()
    ensures created { (format : AFormat) (disk : D) (log after : Log D)
        → IsCreated D.disk D.left_since format disk log
        → IsCreated D.disk D.left_since format disk after
        → (log.gate ≡ after.gate) × (log.format ≡ after.format) × (log.fault ≡ after.fault) }
    ensures refused { (size other : ℕ) (disk back after : D)
        → IsNotCreated D.disk (create.NotEmpty size) disk back
        → IsNotCreated D.disk (create.NotEmpty other) disk after → size ≡ other }
    ensures either { (format : AFormat) (size : ℕ) (disk back : D) (log : Log D)
        → IsCreated D.disk D.left_since format disk log
        → IsNotCreated D.disk (create.NotEmpty size) disk back → ⊥ }
{}

/// Where a crash leaves an empty file alone, one during a creation leaves at most thirteen bytes,
/// torn.
pub fn creating_leaves_few_bytes<D: Disk>()
    ensures { (disk after : D) (image : List ℕ)
        → EachImage D.disk D.left_since disk (λ empty. empty ≡ [])
        → LeavesOnly D.disk D.left_since disk after (IsTornOf D.disk D.left_since disk 0 13)
        → D.left_since after (D.disk disk).moment image → Torn 0 13 [] image }
{}

/// Where a disk tells its content, an opening of it has one answer, unless a call of the disk fails
/// or memory is wanting: these payloads behind this gate, or this fault.
pub fn opening_is_determined<D: Disk>()
    ensures opened { (format : AFormat) (disk : D) (file : List ℕ) (payloads others : List (List ℕ))
        (log after : Log D) → (D.disk disk).content ≡ Some file
        → IsOpened D.disk D.left_since format payloads disk log
        → IsOpened D.disk D.left_since format others disk after
        → (payloads ≡ others) × (log.gate ≡ after.gate) }
    ensures refused { (format : AFormat) (disk back after : D) (file : List ℕ)
        (fault other : LogFault) → (D.disk disk).content ≡ Some file
        → IsNotOpened D.disk format (opening.Log fault) disk back
        → IsNotOpened D.disk format (opening.Log other) disk after → fault ≡ other }
    ensures either { (format : AFormat) (disk back : D) (file : List ℕ)
        (payloads : List (List ℕ)) (log : Log D) (fault : LogFault)
        → (D.disk disk).content ≡ Some file
        → IsOpened D.disk D.left_since format payloads disk log
        → IsNotOpened D.disk format (opening.Log fault) disk back → ⊥ }
{}
