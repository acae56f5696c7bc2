//! The text of a stack.

ghost use Rattle.std.specs.Prelude.{◌≡◌, ◌++◌, ◌∷◌, [], OnOk, OnErr, map, take, length};
ghost use Rattle.perf_flame.specs.Stacks.{clean, frame_text};

use std::alloc::{AllocError, Global};

/// The text of a stack: the name of a command, and after it those of functions from the outermost to
/// the innermost, with `;` between them. In a name `;` and control bytes (below 0x20, and 0x7f) become
/// `_`.
#[derive(Drop)]
pub struct Stack {
    bytes: Vec<u8>,
}

impl Stack {
    ghost use Rattle.perf_flame.specs.StackText.{stack_text};

    /// The stack of a command without a name.
    pub fn new(alloc: Global) -> Stack
        ensures { stack_text result ≡ [] }
    {
        Stack {
            bytes: Vec::new(alloc),
        }
    }

    /// Begins anew, with the name of a command. It fails only if memory runs out, and then the stack
    /// is that of a command without a name.
    pub fn start(&mut self, command: &[u8]) -> Result<(), AllocError>
        ensures ok { OnOk result (stack_text self.new ≡ map clean command.now) }
        ensures err { OnErr result (stack_text self.new ≡ []) }
    {
        self.bytes.clear();
        self.push_clean(command)
    }

    /// Appends the name of a function. It fails only if memory runs out, and then the stack is as it
    /// was.
    pub fn push_frame(&mut self, name: &[u8]) -> Result<(), AllocError>
        ensures ok { OnOk result (stack_text self.new ≡ stack_text self.old ++ frame_text name.now) }
        ensures err { OnErr result (stack_text self.new ≡ stack_text self.old) }
    {
        self.bytes.push(b';')?;
        let pushed = self.push_clean(name);
        if pushed.is_err() {
            self.bytes.pop();
        }
        pushed
    }

    /// Appends the text of another stack. It fails only if memory runs out, and then the stack is as it
    /// was.
    pub fn append(&mut self, other: &Stack) -> Result<(), AllocError>
        ensures ok { OnOk result (stack_text self.new ≡ stack_text self.old ++ stack_text other.now) }
        ensures err { OnErr result (stack_text self.new ≡ stack_text self.old) }
    {
        self.bytes.extend_from_slice(&other.bytes)
    }

    /// The text so far.
    pub fn text(&self) -> &[u8]
        ensures { result.now ≡ stack_text self.now }
    {
        &self.bytes
    }

    // Appends a name, or nothing if memory runs out.
    fn push_clean(&mut self, name: &[u8]) -> Result<(), AllocError>
        ensures ok { OnOk result (stack_text self.new ≡ stack_text self.old ++ map clean name.now) }
        ensures err { OnErr result (stack_text self.new ≡ stack_text self.old) }
    {
        let len = self.bytes.len();
        for byte in name {
            if self.bytes.push(clean(*byte)).is_err() {
                self.bytes.truncate(len);
                return Err(AllocError);
            }
        }
        Ok(())
    }
}

// A byte of a name, as it is in a stack.
pub(crate) fn clean(byte: u8) -> u8
    ensures { result ≡ clean byte }
{
    if byte == b';' || byte < 0x20 || byte == 0x7f {
        b'_'
    } else {
        byte
    }
}
