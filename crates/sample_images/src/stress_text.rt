// The text of the large run: a kernel and eight applications that allocate as numbers tell that follow from a seed.
ghost use Rattle.std.specs.Prelude.{◌≡◌, ◌≤◌, length, IfOk};
ghost use Rattle.std.specs.String.{string_bytes};
ghost use Rattle.sample_images.specs.Stress.{StressText};

use itoa::Buffer;
use no_memory::NoMemory;
use std::alloc::Global;

/// What stands before the seed.
pub const STRESS_HEAD: &str =
    "; A kernel and eight applications that allocate as numbers tell that follow from a seed.
heap 16384
stacks 9
entry 0 kernel
entry 1 app
entry 2 app
entry 3 app
entry 4 app
entry 5 app
entry 6 app
entry 7 app
entry 8 app

sig plain () num

kind numbers num

class node
    field number num
    field next ref node
end

static seed num

func app plain
    call nucleus 10             ; CurrentStack
    add eax, [static seed]
    push eax                    ; x, from which all follows
    push null ref node          ; the list
    push null arrref numbers    ; the array that is kept
step: () [arrref numbers, ref node, num]
    imul eax, [esp + 8], 1664525
    add eax, 1013904223
    mov [esp + 8], eax
    shr eax, 29
    cmp eax, 4
    jb put
    cmp eax, 6
    jb empty
    je keep
    call nucleus 2              ; GarbageCollect
    jmp step
put: () [arrref numbers, ref node, num]
    mov eax, tab node
    call nucleus 0              ; AllocObject
    test eax, eax
    je empty
    mov ecx, [esp + 8]
    mov [eax + field node number], ecx
    mov ecx, [esp + 4]
    mov [eax + field node next], ecx
    mov [esp + 4], eax
    jmp step
empty: () [arrref numbers, ref node, num]
    mov [esp + 4], null ref node
    jmp step
keep: () [arrref numbers, ref node, num]
    mov ecx, [esp + 8]
    shr ecx, 20
    and ecx, 63
    mov eax, desc numbers
    call nucleus 1              ; AllocArray
    test eax, eax
    je empty
    mov [esp], eax
    jmp step
end

; The applications run in turn, for ever.
func kernel plain
    mov eax, ";

/// What stands behind the seed.
pub const STRESS_TAIL: &str = "
    mov [static seed], eax
    mov eax, 65536
    call nucleus 8              ; StartTimer
    push 0                      ; the application that runs
turn: () [num]
    add [esp], 1
    cmp [esp], 9
    jb run
    mov [esp], 1
run: () [num]
    mov eax, [esp]
    call nucleus 3              ; YieldTo
    cmp eax, 131072
    jb turn
    cmp eax, 196608
    jae turn
    call nucleus 9              ; SendEoi
    jmp turn
end
";

/// The text of the large run that follows from a seed.
///
/// After `NoMemory` there is no text.
pub fn stress_source(alloc: Global, seed: u32) -> Result<String, NoMemory>
    ensures text { IfOk result (λ text. string_bytes text ≡ StressText seed) }
    ensures short { IfOk result (λ text. length (string_bytes text) ≤ 4096) }
{
    let mut out = String::new(alloc);
    out.push_str(STRESS_HEAD)?;
    let mut buffer = Buffer::new();
    out.push_str(buffer.format(seed))?;
    out.push_str(STRESS_TAIL)?;
    Ok(out)
}
