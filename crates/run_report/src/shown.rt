// What a machine offers to the writer of its report.
ghost use Rattle.std.specs.Prelude.{◌≡◌, ◌<◌, Some, length, slice_get, slice_index};
ghost use Rattle.device_model.specs.declared.screen.TheConstants.{CELLS};
ghost use Rattle.run_report.specs.Shown.{ShownWords, ShownStack};

use stack_states::{FlagBits, StackState};

/// What a report shows of a machine.
pub trait Shown {
    ghost shown: { Self → ShownWords };

    /// The registers by their numbers, ESP among them.
    fn regs(&self) -> [u32; 8]
        ensures { result ≡ (shown self.now).regs };

    /// The flags.
    fn flags(&self) -> FlagBits
        ensures { result ≡ (shown self.now).flags };

    /// The address of the running stack's next instruction.
    fn pc(&self) -> u32
        ensures { result ≡ (shown self.now).place };

    /// How many stacks there are.
    fn stacks(&self) -> u32
        ensures { result ≡ length (shown self.now).stacks };

    /// What a stack does.
    fn state(&self, stack: u32) -> StackState
        requires { stack < length (shown self.now).stacks }
        ensures { (t : ShownStack) → slice_get (shown self.now).stacks stack ≡ Some t → result ≡ t.state };

    /// The words of a stack from the top to the bottom.
    fn stack_words(&self, stack: u32) -> &[u32]
        requires { stack < length (shown self.now).stacks }
        ensures { (t : ShownStack) → slice_get (shown self.now).stacks stack ≡ Some t → result.now ≡ t.words };

    /// The words of the statics.
    fn statics(&self) -> &[u32]
        ensures { result.now ≡ (shown self.now).statics };

    /// A cell of the screen, at `80 * row + column`.
    fn cell(&self, position: u32) -> u16
        requires { position < CELLS }
        ensures cell { result ≡ slice_index (shown self.now).cells position }
        ensures all { length (shown self.now).cells ≡ CELLS };
}
