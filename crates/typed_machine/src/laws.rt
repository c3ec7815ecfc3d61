// What small programs come to: the definitions, computed. Each law is a function with nothing to do, whose clause is the law.
ghost use Rattle.typed_machine.specs.Examples.{StaticIsWritten, MethodIsCalled, ElementIsRead, DivideErrorEnds, RefusalsAreTold, TickInterrupts, EachCallReplies};
ghost use Rattle.typed_machine.specs.HeapExamples.{RingIsReached, GapsDecide, AllocationsAreTold};

/// A program that writes 5 into a static halts with 5 after three turns, and the static is 5.
pub fn a_static_is_written()
    ensures { StaticIsWritten }
{}

/// A program that calls a method by its class's table halts with 9, which the method gave.
pub fn a_method_is_called()
    ensures { MethodIsCalled }
{}

/// A program that reads an element of a data array below its length halts with that element.
pub fn an_element_is_read()
    ensures { ElementIsRead }
{}

/// A division by 0 ends the run by the fault of vector 0.
pub fn a_divide_error_ends()
    ensures { DivideErrorEnds }
{}

/// An application to which the kernel yields is refused three yields and a reset, each with its reply, and ends; the kernel
/// halts with what it is told of that end.
pub fn refusals_are_told()
    ensures { RefusalsAreTold }
{}

/// A tick interrupts an application, and a yield to it goes on with it at the place where it was.
pub fn a_tick_interrupts()
    ensures { TickInterrupts }
{}

/// Each call of the Nucleus behind those of the heap replies what its row says, where it is done and where it is refused.
pub fn each_call_replies()
    ensures { EachCallReplies }
{}

/// Objects that refer to each other in a ring are reached from one of them, and one beside the ring is not.
pub fn a_ring_is_reached()
    ensures { RingIsReached }
{}

/// What has room in a gap of the heap is placed in one, at a multiple of 4 words, and else it is refused.
pub fn gaps_decide()
    ensures { GapsDecide }
{}

/// An object is placed, and a collection counts its words while a static holds it and not while a register alone does; an array
/// without room is refused. A place beside the multiples of 4 words and a refusal in spite of room are told as not legal, and
/// without an answer there is no turn.
pub fn allocations_are_told()
    ensures { AllocationsAreTold }
{}
