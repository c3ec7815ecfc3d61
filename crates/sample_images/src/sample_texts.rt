// The texts of the sample kernel and of its two applications.
ghost use Rattle.std.specs.Prelude.{◌≡◌, ◌≤◌, length, option_map, IfSome};
ghost use Rattle.sample_images.specs.Samples.{app_text};

/// A kernel that lets two applications run in turn.
pub const KERNEL: &str =
    "; A kernel that lets two applications run in turn, app1.asm and app2.asm, until both have ended.
;
; It makes the semaphore that the applications share, and sets the timer, so that its ticks
; interrupt an application that never yields. Whenever it runs again it shows the key codes that
; wait, from the left in row 0. At the end it writes `done` at the left of row 24, the last one,
; and returns how many nodes the applications made.
heap 4096
stacks 3
entry 0 kernel                  ; the entries of stacks 1 and 2 stand in the other texts

sig plain () num
sig of_number (eax num) num
sig of_nodes (eax ref node) num

class semaphore
    field count num             ; how many may take it now
end

class node
    field digit num
    field next ref node
end

static gate ref semaphore
static nodes1 ref node          ; what application 1 made
static nodes2 ref node
static column num               ; where the next digit of a key code is shown

func kernel plain
    mov eax, tab semaphore
    call nucleus 0              ; AllocObject
    test eax, eax
    je refused                  ; null: the heap has no room
    mov [eax + field semaphore count], 1
    mov [static gate], eax
    mov eax, 65536
    call nucleus 8              ; StartTimer
    push 2                      ; [esp + 4]: the application that waits, 0 for none
    push 1                      ; [esp]: the application that runs next
turn: () [num, num]
    mov eax, [esp]
    call nucleus 3              ; YieldTo: it runs until it yields, is interrupted, or ends
    push eax                    ; the reply tells which of these it was
    call show_keys
    pop eax
    cmp eax, 196608
    jae ended                   ; from there on it ended, by a fault or by itself
    cmp eax, 131072
    jb swap                     ; below it yielded
    call nucleus 9              ; SendEoi: the interrupt is served
swap: () [num, num]
    mov eax, [esp + 4]
    cmp eax, 0
    je turn                     ; there is no other one
    mov ecx, [esp]
    mov [esp], eax
    mov [esp + 4], ecx
    jmp turn
ended: () [num, num]
    mov eax, [esp + 4]          ; the other one goes on alone
    mov [esp], eax
    mov [esp + 4], 0
    cmp eax, 0
    jne turn
    add esp, 8                  ; both have ended
    call show_keys
    mov eax, 1920               ; row 24
    mov ecx, 0x0764             ; d
    call nucleus 6              ; VgaTextWrite
    mov eax, 1921
    mov ecx, 0x076F             ; o
    call nucleus 6
    mov eax, 1922
    mov ecx, 0x076E             ; n
    call nucleus 6
    mov eax, 1923
    mov ecx, 0x0765             ; e
    call nucleus 6
    mov eax, [static nodes1]
    call length
    push eax
    mov eax, [static nodes2]
    call length
    add eax, [esp]
    add esp, 4
    ret
refused: ()
    mov eax, 0
    ret
end

; Shows each key code that waits as two hexadecimal digits.
func show_keys plain
    nop
again: ()
    call nucleus 7              ; TryReadKeyboard: 256 where no code waits
    cmp eax, 256
    je none
    push eax
    shr eax, 4
    call show_digit
    pop eax
    and eax, 15
    call show_digit
    jmp again
none: (eax num)
    ret
end

; Shows a digit from 0 to 15 at the column, and goes on to the next column. Behind the last one
; comes the first again.
func show_digit of_number
    cmp eax, 10
    jb decimal
    add eax, 7                  ; the letter A stands seven characters behind the digit 9
decimal: (eax num)
    mov ecx, eax
    add ecx, 0x0730             ; 0, with attribute 7
    mov eax, [static column]
    call nucleus 6
    add [static column], 1
    cmp [static column], 80
    jb kept
    mov [static column], 0
kept: ()
    mov eax, 0
    ret
end

; How many nodes a list has.
func length of_nodes
    mov ecx, 0
again: (eax ref node, ecx num)
    test eax, eax
    je counted
    mov eax, [eax + field node next]
    inc ecx
    jmp again
counted: (ecx num)
    mov eax, ecx
    ret
end
";

/// The application on stack 1.
pub const APP_1: &str = "; Application 1 of the kernel in kernel.asm, on stack 1.
;
; In each of ten rounds it takes the semaphore, puts a node into its list, writes the digit of the
; round into row 1, gives the semaphore back, and yields to the kernel.
entry 1 app1

; What stands behind `extern` is in kernel.asm. It must be the same here as there.
extern sig plain () num

extern class semaphore
    field count num
end

extern class node
    field digit num
    field next ref node
end

extern static gate ref semaphore
extern static nodes1 ref node

func app1 plain
    push 0                      ; the round
round: () [num]
    mov ebx, [static gate]
    test ebx, ebx
    je leave
    sub [ebx + field semaphore count], 1
    jns taken                   ; it was 1, so the semaphore is this application's now
    add [ebx + field semaphore count], 1
    mov eax, 0
    call nucleus 3              ; YieldTo the kernel: the other application has the semaphore
    jmp round
taken: () [num]
    mov eax, tab node
    call nucleus 0              ; AllocObject
    test eax, eax
    je show                     ; null: there is no node in this round
    mov ecx, [esp]
    mov [eax + field node digit], ecx
    mov ecx, [static nodes1]
    mov [eax + field node next], ecx
    mov [static nodes1], eax
show: () [num]
    mov eax, [esp]
    mov ecx, eax
    add eax, 80                 ; row 1 has the cells from 80 on
    add ecx, 0x0730             ; 0, with attribute 7
    call nucleus 6              ; VgaTextWrite
    mov ebx, [static gate]      ; a call of the Nucleus leaves nothing in EBX
    test ebx, ebx
    je leave
    add [ebx + field semaphore count], 1
    mov eax, 0
    call nucleus 3
    add [esp], 1
    cmp [esp], 10
    jb round
leave: () [num]
    add esp, 4
    mov eax, 0
    ret
end
";

/// The application on stack 2.
pub const APP_2: &str = "; Application 2 of the kernel in kernel.asm, on stack 2.
;
; In each of ten rounds it takes the semaphore, puts a node into its list, writes the digit of the
; round into row 2, gives the semaphore back, and yields to the kernel.
entry 2 app2

; What stands behind `extern` is in kernel.asm. It must be the same here as there.
extern sig plain () num

extern class semaphore
    field count num
end

extern class node
    field digit num
    field next ref node
end

extern static gate ref semaphore
extern static nodes2 ref node

func app2 plain
    push 0                      ; the round
round: () [num]
    mov ebx, [static gate]
    test ebx, ebx
    je leave
    sub [ebx + field semaphore count], 1
    jns taken                   ; it was 1, so the semaphore is this application's now
    add [ebx + field semaphore count], 1
    mov eax, 0
    call nucleus 3              ; YieldTo the kernel: the other application has the semaphore
    jmp round
taken: () [num]
    mov eax, tab node
    call nucleus 0              ; AllocObject
    test eax, eax
    je show                     ; null: there is no node in this round
    mov ecx, [esp]
    mov [eax + field node digit], ecx
    mov ecx, [static nodes2]
    mov [eax + field node next], ecx
    mov [static nodes2], eax
show: () [num]
    mov eax, [esp]
    mov ecx, eax
    add eax, 160                ; row 2 has the cells from 160 on
    add ecx, 0x0730             ; 0, with attribute 7
    call nucleus 6              ; VgaTextWrite
    mov ebx, [static gate]      ; a call of the Nucleus leaves nothing in EBX
    test ebx, ebx
    je leave
    add [ebx + field semaphore count], 1
    mov eax, 0
    call nucleus 3
    add [esp], 1
    cmp [esp], 10
    jb round
leave: () [num]
    add esp, 4
    mov eax, 0
    ret
end
";

/// The text of the sample kernel.
pub fn kernel_source() -> &'static str
    ensures text { result.now ≡ KERNEL.now }
    ensures short { length result.now ≤ 4096 }
{
    KERNEL
}

/// The text of application `n` of the sample kernel. None where `n` is not 1 or 2.
pub fn app_source(n: u32) -> Option<&'static str>
    ensures text { option_map (λ text. text.now) result ≡ app_text n }
    ensures short { IfSome result (λ text. length text.now ≤ 4096) }
{
    match n {
        1 => Some(APP_1),
        2 => Some(APP_2),
        _ => None,
    }
}
