// Worked examples of texts that are refused, byte for byte, in the form of the other examples, and words of no command.

pub const REFUSALS: &str = "\
# a global that is received
global g
main: begin
receive g(val)
end
$ optimise
@ 2
line 3: global received
# a global that is named twice
global g
global g
main: begin
end
$ optimise
@ 2
line 2: global named twice
# a global alone
global g
$ optimise
@ 2
no unit
# a global behind a unit
main: begin
end
global g
$ optimise
@ 2
line 3: unexpected
# a trap number that is too great
main: begin
if 1 trap 256
end
$ optimise
@ 2
line 2: bad trap number
# a number that is too great
main: begin
x <- 9223372036854775808
end
$ run 9
@ 2
line 2: bad number
# a number that a letter follows
main: begin
x <- 12a
end
$ run 9
@ 2
line 2: bad number
# a number in another base
main: begin
x <- 0x10
end
$ run 9
@ 2
line 2: bad number
# an arrow where a relation is meant
main: begin
x <- a <-5
end
$ run 9
@ 2
line 2: unexpected
# a byte that begins no token
main: begin
x <- ?
end
$ optimise
@ 2
line 2: bad byte
# a single bar
main: begin
x <- 1 | 2
end
$ optimise
@ 2
line 2: bad byte
# a reserved word as a name
main: begin
mod <- 1
end
$ optimise
@ 2
line 2: unexpected
# two instructions on a line
main: begin
print 1 print 2
end
$ optimise
@ 2
line 2: unexpected
# a unit without its end
main: begin
x <- f,(a,int)
call g,()
$ optimise
@ 2
text ends inside a unit
# the empty text
$ optimise
@ 2
no unit
# a text without a unit

|| nothing
$ optimise
@ 2
no unit
# a unit named twice
main: begin
end
f: begin
end
f: begin
end
main: begin
end
$ optimise
@ 2
line 5: unit named twice
# a receive after another instruction
main: begin
print 1
receive a(val)
end
$ optimise
@ 2
line 3: late receive
# a receive with a label
main: begin
L: receive a(val)
end
$ optimise
@ 2
line 2: late receive
# a variable received twice
main: begin
receive a(val)
receive a(val)
end
$ optimise
@ 2
line 3: variable received twice
# seventeen receives
main: begin
receive a0(val)
receive a1(val)
receive a2(val)
receive a3(val)
receive a4(val)
receive a5(val)
receive a6(val)
receive a7(val)
receive a8(val)
receive a9(val)
receive a10(val)
receive a11(val)
receive a12(val)
receive a13(val)
receive a14(val)
receive a15(val)
receive a16(val)
end
$ optimise
@ 2
line 18: too many receives
# a label named twice
main: begin
L: print 1
L: end
$ optimise
@ 2
line 3: label named twice
# no such label first
main: begin
x <- f,(a,int)
call g,()
goto L9
end
f: begin
end
$ optimise
@ 2
line 4: no such label
# then no such unit
main: begin
x <- f,(a,int)
call g,()
end
f: begin
end
$ optimise
@ 2
line 3: no such unit
# then the number of arguments
main: begin
x <- f,(a,int)
end
f: begin
end
$ optimise
@ 2
line 2: wrong number of arguments
";

/// Words of no command, of which the first are none.
pub const OTHER_WORDS: &str = "
optimize
Optimise
optimise x
Stages
stages 1
Move
move 1
Ranges
ranges 1
divisions 1
Tails
tails 1
join 1
thorough 1
Passes
passes x
passes Tails
passes tails 1
passes stages
passes clean clean clean clean clean clean clean clean clean clean clean clean clean clean clean clean clean \
clean clean clean clean clean clean clean clean clean clean clean clean clean clean clean clean clean clean \
clean clean clean clean clean clean clean clean clean clean clean clean clean clean clean clean clean clean \
clean clean clean clean clean clean clean clean clean clean clean clean
run
run x
run 1000001
run -1
run +5
run 5 x
run 5 9223372036854775808
run 5 --1
run 5 +1
Trial 7 3
trial
trial 7
trial 7 0
trial 7 257
trial 7 -1
trial x 3
trial -1 3
trial 18446744073709551616 3
trial 7 3 3";
