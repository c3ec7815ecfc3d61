// What holds of the definitions alone: each law is a function with nothing to do, whose clause is the law.
ghost use Rattle.typed_safety.specs.Laws.{FormedImagesTell, InstructionsKeepTyping, WellTypedImagesKeepTyping, DisplaysAreThere, InstructionsUseLiving, TurnsKeepTyping, RunsAreTyped, LiveObjectsAreLeast, ReachShrinks, ObjectsStay, LivePlacesDiffer, CallsReply, HeapCallsAreTyped, RootedObjectsLive, RepliesHold};

/// A formed image tells what typed instructions rest on: its heap has its limit, its classes keep the laws of classes, its methods are its functions,
/// at its blocks instructions begin, and what its marks stand for has the marks' types and words.
pub fn formed_images_tell()
    ensures { FormedImagesTell }
{
    tal_types::laws::type_laws();
    tal_checker::laws::code_laws();
    tal_image::laws::formed_shapes();
}

/// From a typed state an instruction is never ill typed. The state that it moves on to is typed; a call of the Nucleus has its
/// arguments, and its reply is awaited; and a run that ends has a number in EAX.
pub fn instructions_keep_typing()
    ensures { InstructionsKeepTyping }
{}

/// In a well typed image an instruction stands at the place of each typed state, and it keeps typing.
pub fn well_typed_images_keep_typing()
    ensures { WellTypedImagesKeepTyping }
{
    formed_images_tell();
    tal_checker::laws::accepted_runs();
}

/// In a well typed image, where CMP at the place of a typed state names a word of a display, the word is there.
pub fn displays_are_there()
    ensures { DisplaysAreThere }
{
    formed_images_tell();
    tal_checker::laws::accepted_runs();
}

/// In a well typed image, what the operands of the instruction at the place of a typed state point to belongs to objects that
/// live.
pub fn instructions_use_living()
    ensures { InstructionsUseLiving }
{
    formed_images_tell();
    tal_checker::laws::accepted_runs();
}

/// In a well typed image a turn from a typed state leads to a typed state, whether an interrupt is accepted, or an instruction
/// moves on, faults, ends a stack or calls the Nucleus; of an allocation, where its answer is legal. There is no turn where an
/// allocation has no answer, and only there.
pub fn turns_keep_typing()
    ensures { TurnsKeepTyping }
{
    formed_images_tell();
    tal_checker::laws::accepted_runs();
    tal_checker::laws::esp_is_junk();
    reached_objects::laws::reach_is_least();
}

/// Each run of a well typed image with legal answers has come to a typed state, and goes on unless an allocation has no answer.
pub fn runs_are_typed()
    ensures { RunsAreTyped }
{
    formed_images_tell();
    tal_checker::laws::accepted_runs();
    tal_checker::laws::esp_is_junk();
    reached_objects::laws::reach_is_least();
}

/// In a well typed image a typed state is typed among the objects that a run can come to: the data arrays and what is reached
/// from what the state holds. They are the least set over which it is typed.
pub fn live_objects_are_least()
    ensures { LiveObjectsAreLeast }
{
    tal_checker::laws::esp_is_junk();
    reached_objects::laws::reach_is_least();
}

/// What a run can come to after a turn it could come to before, but for the object that an allocation places.
pub fn reach_shrinks()
    ensures { ReachShrinks }
{
    formed_images_tell();
    tal_checker::laws::accepted_runs();
    tal_checker::laws::esp_is_junk();
    reached_objects::laws::reach_is_least();
}

/// A turn leaves each object its shape and place.
pub fn objects_stay()
    ensures { ObjectsStay }
{}

/// Two objects that a run can come to stand at different places.
pub fn live_places_differ()
    ensures { LivePlacesDiffer }
{}

/// In a well typed image a call of the Nucleus that has its arguments has a reply.
pub fn calls_reply()
    ensures { CallsReply }
{
    formed_images_tell();
    tal_checker::laws::accepted_runs();
}

/// In a well typed image a call of the heap from a typed state finds its arguments, and the reply's type is awaited where the
/// call comes back.
pub fn heap_calls_are_typed()
    ensures { HeapCallsAreTyped }
{
    formed_images_tell();
    tal_checker::laws::accepted_runs();
}

/// What is reached from the roots of a call is what a run can come to.
pub fn rooted_objects_live()
    ensures { RootedObjectsLive }
{
    reached_objects::laws::reach_is_least();
}

/// After a reply the caller's registers hold that alone, so that a run can come to what the roots reach, and to the object that
/// was placed if one was.
pub fn replies_hold()
    ensures { RepliesHold }
{
    reached_objects::laws::reach_is_least();
}
