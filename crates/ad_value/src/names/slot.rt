//! What a slot's ad has, in the order of the ad (HTCondor manual, Machine ClassAd Attributes).

ghost use Rattle.std.specs.Prelude.{◌≡◌, codes};

/// `"Machine"`, the kind of the ad.
pub const MY_TYPE: &str = "MyType";
/// `slotK@MACHINE`.
pub const NAME: &str = "Name";
/// Its machine.
pub const MACHINE: &str = "Machine";
/// Its number on the machine, from 1.
pub const SLOT_ID: &str = "SlotID";
/// The operating system.
pub const OP_SYS: &str = "OpSys";
/// The kind of processor.
pub const ARCH: &str = "Arch";
/// How many processors it has.
pub const CPUS: &str = "Cpus";
/// How much memory it has, in MiB.
pub const MEMORY: &str = "Memory";
/// How much disk it has, in KiB.
pub const DISK: &str = "Disk";
/// Which jobs it starts.
pub const START: &str = "Start";

/// The names are these texts.
pub fn texts_are()
    ensures my_type { MY_TYPE.now ≡ codes "MyType" }
    ensures name { NAME.now ≡ codes "Name" }
    ensures machine { MACHINE.now ≡ codes "Machine" }
    ensures slot_id { SLOT_ID.now ≡ codes "SlotID" }
    ensures op_sys { OP_SYS.now ≡ codes "OpSys" }
    ensures arch { ARCH.now ≡ codes "Arch" }
    ensures cpus { CPUS.now ≡ codes "Cpus" }
    ensures memory { MEMORY.now ≡ codes "Memory" }
    ensures disk { DISK.now ≡ codes "Disk" }
    ensures start { START.now ≡ codes "Start" }
{}
