//! What framing means for whole lines of bytes: statements that the check holds the definitions to.

ghost use Rattle.wire.specs.Theorems.{EveryPacketIsFramed, TheLineIsFoundAgain, EveryFaultHasItsBytes, FoundAfterFaults};

/// The bytes of any packet, fed with no packet begun, give exactly that packet and leave none begun.
pub fn every_packet_is_framed()
    ensures { EveryPacketIsFramed }
{}

/// After any bytes whatever, the next FF leaves no packet begun.
pub fn the_line_is_found_again()
    ensures { TheLineIsFoundAgain }
{}

/// Just these bytes lead to a fault, with no packet begun before them: one that is no header; a header and FF; sixteen
/// with none of them FF. They tell nothing until the last, and leave none begun, or the rest of a packet that is too
/// long to be skipped.
pub fn every_fault_has_its_bytes()
    ensures { EveryFaultHasItsBytes }
{}

/// After a fault the next packet is framed: right behind it, or, where it is too many bytes, behind the next FF.
pub fn found_after_faults()
    ensures { FoundAfterFaults }
{}
