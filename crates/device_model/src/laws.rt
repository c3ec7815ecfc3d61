// Laws of histories and of event files: what the sentences of the definitions give, item by item. The functions do
// nothing, and their contracts are the laws (`specs/Laws.antt`).
ghost use Rattle.device_model.specs.Laws.{AwaitedByItem, CountSetByItem, AcceptedByItem, RequestedByItem, ServedByItem, WaitingByItem, GrantComputed, OneGrant, OneList, ListOrFault, OneFault};

pub use crate::devices::one_state;

/// The timer's awaited bytes, item by item.
pub fn awaited_bytes()
    ensures { AwaitedByItem }
{}

/// Whether a count is set, item by item.
pub fn count_set()
    ensures { CountSetByItem }
{}

/// What is accepted, item by item.
pub fn accepted()
    ensures { AcceptedByItem }
{}

/// What is requested, item by item.
pub fn requested()
    ensures { RequestedByItem }
{}

/// What is in service, item by item.
pub fn in_service()
    ensures { ServedByItem }
{}

/// The waiting codes, item by item.
pub fn waiting_codes()
    ensures { WaitingByItem }
{}

/// The line that can be granted is computed.
pub fn granted_line()
    ensures { GrantComputed }
{}

/// At most one line can be granted.
pub fn one_grant()
    ensures { OneGrant }
{}

/// Bytes have one list of events or one first fault, and never both.
pub fn one_outcome()
    ensures list { OneList }
    ensures either { ListOrFault }
    ensures fault { OneFault }
{}
