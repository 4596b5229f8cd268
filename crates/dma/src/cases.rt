// The worked cases of the definitions.
ghost use Rattle.dma.specs.WorkedCases.{EveryCaseHolds};

// Does nothing: its contract is that the definitions give what the table of worked cases says.
pub fn worked_cases()
    ensures every_case_holds { EveryCaseHolds }
{}
