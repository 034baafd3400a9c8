// What a caller may rest on of every device, each law as a contract.
ghost use Rattle.pm_trait.specs.Laws.{SettledLaw, IntervalLaw, FenceLaw, TicketLaw, AckLaw};

/// A crash leaves a settled device as it reads.
pub fn settled_law()
    ensures { SettledLaw }
{}

/// A crash in an interval that began with settled words leaves old and new words mixed.
pub fn interval_law()
    ensures { IntervalLaw }
{}

/// A fence settles an interval whose stores are flushed, and until its end a crash leaves old and new words mixed.
pub fn fence_law()
    ensures { FenceLaw }
{}

/// What was flushed is settled once a later fence has succeeded.
pub fn ticket_law()
    ensures { TicketLaw }
{}

/// An acknowledgement changes nothing of what a crash leaves of a settled device.
pub fn ack_law()
    ensures { AckLaw }
{}
