// A packet's payload, and its record, as a host in C asks for them.
ghost use Rattle.saltdoodle.specs.Record.{PayloadTold, RecordTold, FieldsTold};

use host_structs::answers::Sent;
use saltdoodle::record::{PayloadPlace, PlainRecord};

// Where the packet's payload stands, in stores of these lengths: the empty part of the object store where the store does not have it or there is no packet.
#[unsafe(no_mangle)]
pub extern "C" fn sd_payload(object_store: u64, fdt_store: u64, s: Sent) -> PayloadPlace
    ensures { PayloadTold object_store fdt_store s result }
{
    saltdoodle::record::sd_payload(object_store, fdt_store, s)
}

// Writes the packet's record. Refused, with nothing written, where there is no packet, or one that has no record.
#[unsafe(no_mangle)]
pub extern "C" fn sd_record_write(out: &mut [u8; 28], s: Sent) -> u32
    ensures { RecordTold s out.old result out.new }
{
    saltdoodle::record::sd_record_write(out, s)
}

// Reads a record.
#[unsafe(no_mangle)]
pub extern "C" fn sd_record_read(bytes: &[u8; 28]) -> PlainRecord
    ensures { FieldsTold bytes.now result }
{
    saltdoodle::record::sd_record_read(bytes)
}
