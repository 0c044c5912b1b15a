//! The command `create`: makes an empty store.
ghost use Rattle.std.specs.Prelude.{◌≡◌, string_bytes, MatchResult};
ghost use Rattle.outside.specs.Stream.{Stream};
ghost use Rattle.explorer.specs.Create.{CreatesBy, IsNotMade, Makes};
ghost use Rattle.explorer.specs.Faults.{fault_of_creation};
ghost use Rattle.explorer.specs.Lines.{ending_of};
ghost use Rattle.explorer.specs.Stores.{IsSized};
ghost use Rattle.explorer.specs.World.{world};

use crate::fault::Fault;
use disk_model::Disk;
use host::Host;
use host::laws::what_is_handed_out_is_out;
use outside::Sink;
use record_log::{Back, CreateFault};

/// Makes a store without a batch on an empty disk, and prints that it is there.
pub fn create<O: Sink, H: Host>(store: String, output: &mut O, host: &mut H) -> Result<(), Fault>
    ensures { (input errors : Stream) →
        let before = world input (O.sink output.old) errors (H.host host.old) in
        let after = world input (O.sink output.new) errors (H.host host.new) in
        CreatesBy (string_bytes store) before after (ending_of result) }
{
    // law: a disk that was handed out is to be given back
    what_is_handed_out_is_out();
    let Ok(disk) = host.disk(store.as_str()) else {
        return Err(Fault::CannotOpen { name: store });
    };
    match make_store(disk) {
        Ok(disk) => host.close(store.as_str(), disk),
        Err(back) => {
            let Back { disk, fault } = back;
            host.close(store.as_str(), disk);
            return Err(fault_of_creation(fault));
        }
    }
    match output.write(b"created\n") {
        Ok(()) => Ok(()),
        Err(_) => Err(Fault::WriteFault),
    }
}

/// Makes a store without a batch on an empty disk.
fn make_store<D: Disk>(disk: D) -> Result<D, Back<D, CreateFault>>
    ensures sized { IsSized (D.disk disk) }
    ensures made { MatchResult result (λ made. Makes (D.disk disk) (D.disk made))
        (λ back. IsNotMade back.fault (D.disk disk) (D.disk back.disk)) }
{
    match manifest::create(disk) {
        Ok(made) => Ok(made.into_disk()),
        Err(back) => Err(back),
    }
}

/// Why a store is not made, as a run tells it.
pub fn fault_of_creation(fault: CreateFault) -> Fault
    ensures { result ≡ fault_of_creation fault }
{
    match fault {
        CreateFault::NotEmpty { size } => Fault::NotEmpty { size },
        CreateFault::DiskFault { .. } => Fault::DiskFault,
    }
}
