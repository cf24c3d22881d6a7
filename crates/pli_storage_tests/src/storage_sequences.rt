//! Worked sequences of calls on storage.

use crate::words::run;
use std::test::*;

/// Sequences of calls with every answer, in the form that `run` reads; where none is written, it is `done`. `make
/// pair 'A' 7 => 2` makes generation 2 with these values for its scalars; without values it begins with zeros,
/// blanks, empty strings and null locators. `held 2+2:n15` is what the number holds that stands 2 bytes after its
/// beginning, and so are `number` and `text`, which give nothing but numbers and characters. `store` puts a value,
/// `put` a number, `append` characters after others where both are no more than so many, and `copy` what the first
/// place holds at the second. `room` asks whether there is room for a generation. `wrong` says that no rule gives an
/// answer, and `far` that a place would lie more than 1,000,000 bytes after the beginning.
static SEQUENCES: &str = "\
// generations are numbered from 0, in the order in which they are made
make n15 => 0; make c4 => 1; make pairs => 2; make empty => 3; dummy n15 5 => 4; held 4 => 5; held 0 => 0
held 1 => '    '; held 2+6:n15 => 0
// no number is used again
make n15 => 0; end 0; make n15 => 1; end 1; dummy n15 3 => 2; end 2; make n15 4 => 3; held 0 => E4; held 1 => E4
held 2 => E4; held 3 => 4
// a place is dead for every call once its generation has ended
make n15 => 0; make v3 => 1; end 0 1; held 0 => E4; number 0 => none; put 0 1 => no; store 0 1 => E4; copy 0 0 => E4
text 1 => none; append 1 'A' 3 => no; held 1 => E4; store 1 'A' => E4; number 1 => none; held 0+1:n15 => E4
held 0+0:n31 => E4; store 0 'A' => E4; put 0 99999 => no
// the end of one generation leaves the others
make n15 1 => 0; make n15 2 => 1; make n15 3 => 2; end 1; held 0 => 1; held 1 => E4; held 2 => 3; put 2 4 => yes
put 0 5 => yes; put 1 6 => no; held 2 => 4; held 0 => 5; make n15 7 => 3; held 3 => 7; held 2 => 4
// generations end in any order
make n15 1 => 0; make n15 2 => 1; make n15 3 => 2; make n15 4 => 3; end 2; held 3 => 4; end 0; held 1 => 2; held 3 => 4
make n15 5 => 4; end 3; held 1 => 2; held 4 => 5; end 4; end 1; held 1 => E4; make n15 => 5
// several end at once, in either order
make n15 1 => 0; make n15 2 => 1; make n15 3 => 2; make n15 4 => 3; make n15 5 => 4; end 0 1; held 2 => 3; end 4 3
held 2 => 3; held 0 => E4; held 1 => E4; held 3 => E4; held 4 => E4
// what has ended or was never made does not end again
make n15 1 => 0; end 5; end 0; end 0; end 0 0 7; make n15 2 => 1; held 1 => 2; end 0 1 1; held 1 => E4; make n15 3 => 2
held 2 => 3
// a dummy is a generation like others
dummy v3 'AB' => 0; held 0 => 'AB'; text 0 => 'AB'; append 0 'C' 3 => yes; held 0 => 'ABC'; store 0 ''; held 0 => ''
make v3 'X' => 1; copy 1 0; held 0 => 'X'; end 0; held 0 => E4; held 1 => 'X'
// a dummy has a value that it may hold, or none is made
dummy n15 'A' => wrong; dummy n15 32768 => wrong; dummy c3 'AB' => wrong; dummy v3 'ABCD' => wrong
dummy b8 '1'B => wrong; dummy b8 'ABCDEFGH' => wrong; dummy pair 1 => wrong; dummy p 0 => wrong; dummy empty 1 => wrong
dummy n15 32767 => 0; held 0 => 32767
// a dummy shows nothing of one that has ended
dummy v9 'ABCDEFGHI' => 0; end 0; dummy v9 'X' => 1; held 1 => 'X'; append 1 'YZ' 9 => yes; held 1 => 'XYZ'; end 1
dummy n63 -1 => 2; end 2; dummy b12 '000000000000'B => 3; held 3 => '000000000000'B; end 3; dummy b9 '000000001'B => 4
held 4 => '000000001'B; dummy n15 -2 => 5; held 4 => '000000001'B; held 5 => -2
// scalars begin with zero, blanks, no characters, or zero bits
make n63 => 0; held 0 => 0; make c4 => 1; held 1 => '    '; make v9 => 2; held 2 => ''; make b12 => 3
held 3 => '000000000000'B; make record => 4; held 4+0:v3 => ''; held 4+5:b9 => '000000000'B; held 4+8:n63 => 0
held 4+16:c1 => ' '; make letters => 5; held 5+4:c1 => ' '; make words => 6; held 6+18:v3 => ''
// initial values go to the scalars in their order
make record 'AB' '101010101'B -5 'Z' => 0; held 0+0:v3 => 'AB'; held 0+5:b9 => '101010101'B; held 0+8:n63 => -5
held 0+16:c1 => 'Z'; make pairs 'A' 1 'B' 2 'C' 3 => 1; held 1+0:c1 => 'A'; held 1+2:n15 => 1; held 1+4:c1 => 'B'
held 1+6:n15 => 2; held 1+8:c1 => 'C'; held 1+10:n15 => 3
// initial values that scalars may not hold make no generation and use no number
make n15 32768 => wrong; make pair 'AB' 1 => wrong; make pair 1 'A' => wrong; make pair 'A' => wrong
make pair 'A' 1 2 => wrong; make pair 'A' 40000 => wrong; make v3 'ABCD' => wrong; make c3 'AB' => wrong
make b9 '1'B => wrong; make row 1 2 => wrong; make row 1 2 'C' => wrong; make n15 7 => 0; held 0 => 7
// a pointer is null, or has a generation and a position
make p => 0; held 0 => null; store 0 ^2+8; held 0 => ^2+8; store 0 ^0+0; held 0 => ^0+0; store 0 ^4294967294+4294967295
held 0 => ^4294967294+4294967295; store 0 ^4294967295+0 => wrong; store 0 @8 => wrong; store 0 8 => wrong; put 0 0 => no
append 0 'A' 9 => no; number 0 => none; text 0 => none; held 0 => ^4294967294+4294967295; store 0 null; held 0 => null
dummy p ^3+0 => 1; held 1 => ^3+0; copy 1 0; held 0 => ^3+0; dummy p @0 => wrong
// an offset has a position, 0 where it is null
make o => 0; held 0 => @0; store 0 @40; held 0 => @40; store 0 @4294967295; held 0 => @4294967295; store 0 null => wrong
store 0 ^2+8 => wrong; store 0 8 => wrong; put 0 0 => no; number 0 => none; text 0 => none; held 0 => @4294967295
dummy o @8 => 1; copy 1 0; held 0 => @8; make p => 2; copy 2 0 => wrong; copy 0 2 => wrong; dummy o null => wrong
make n31 5 => 3; held 3+0:o => wrong; copy 3 0 => wrong; held 0 => @8
// locators beside others
make address => 0; held 0+0:n31 => 0; held 0+4:p => null; store 0+4:p ^1+0; held 0+0:n31 => 0; put 0+0:n31 -1 => yes
held 0+4:p => ^1+0; make links @8 ^2+4 7 => 1; held 1+0:o => @8; held 1+4:p => ^2+4; held 1+12:n15 => 7
copy 0+4:p 1+4:p; held 1+4:p => ^1+0; held 1+0:o => @8; held 1+12:n15 => 7; make links => 2; held 2+4:p => null
copy 1 2; held 2+0:o => @8; held 2+4:p => ^1+0; make address 1 2 => wrong; make address 7 @2 => wrong
make links ^2+4 @8 7 => wrong; held 0+0:p => wrong; room p => yes; room address => yes
// an area is no value, and has none
make a16 => 0; held 0 => wrong; number 0 => none; text 0 => none; store 0 0 => wrong; put 0 0 => no; copy 0 0 => wrong
make a16 1 => wrong; dummy a16 0 => wrong; make yard => 1; held 1+0:c1 => ' '; held 1+8:a16 => wrong; held 1+24:n15 => 0
make yard 'A' 7 => 2; copy 2 1; held 1+0:c1 => 'A'; held 1+24:n15 => 7; copy 1+8:a16 0 => wrong
make yard 'A' 1 7 => wrong; make yard 'A' => wrong; end 0; held 0 => E4; store 0 0 => E4; copy 0 0 => E4
copy 1 0 => E4; copy 0 1 => E4
// numbers of two bytes
make n1 => 0; put 0 1 => yes; held 0 => 1; put 0 -1 => yes; held 0 => -1; put 0 2 => no; put 0 -2 => no
store 0 2 => wrong; held 0 => -1; make n15 => 1; put 1 32767 => yes; number 1 => 32767; put 1 -32767 => yes
number 1 => -32767; put 1 32768 => no; put 1 -32768 => no; store 1 -32768 => wrong; number 1 => -32767; put 1 256 => yes
held 1 => 256; put 1 255 => yes; held 1 => 255; put 1 -256 => yes; held 1 => -256
// numbers of four bytes
make n16 => 0; put 0 65535 => yes; held 0 => 65535; put 0 -65535 => yes; held 0 => -65535; put 0 65536 => no
put 0 -65536 => no; store 0 65536 => wrong; held 0 => -65535; make n31 => 1; put 1 2147483647 => yes
held 1 => 2147483647; put 1 -2147483647 => yes; held 1 => -2147483647; put 1 2147483648 => no; put 1 -2147483648 => no
store 1 -2147483648 => wrong; held 1 => -2147483647; put 1 65536 => yes; held 1 => 65536
// numbers of eight bytes
make n32 => 0; put 0 4294967295 => yes; held 0 => 4294967295; put 0 -4294967295 => yes; held 0 => -4294967295
put 0 4294967296 => no; put 0 -4294967296 => no; store 0 4294967296 => wrong; held 0 => -4294967295; make n63 => 1
put 1 9223372036854775807 => yes; held 1 => 9223372036854775807; put 1 -9223372036854775807 => yes
held 1 => -9223372036854775807; put 1 -9223372036854775808 => no; store 1 -9223372036854775808 => wrong
number 1 => -9223372036854775807; store 1 4294967296; number 1 => 4294967296
// values of another type are refused, and leave what is held
make n15 7 => 0; store 0 'A' => wrong; store 0 '1'B => wrong; append 0 '1' 9 => no; text 0 => none; held 0 => 7
make c1 'A' => 1; store 1 7 => wrong; store 1 '1'B => wrong; put 1 7 => no; number 1 => none; held 1 => 'A'
make b1 '1'B => 2; store 2 '1' => wrong; store 2 1 => wrong; put 2 1 => no; append 2 '1' 9 => no; number 2 => none
text 2 => none; held 2 => '1'B
// a number leaves those beside it
make row 1 2 3 => 0; put 0+4:n31 -1 => yes; held 0+0:n31 => 1; held 0+4:n31 => -1; held 0+8:n31 => 3
put 0+0:n31 -2147483647 => yes; held 0+4:n31 => -1; put 0+8:n31 2147483647 => yes; held 0+4:n31 => -1; make nest => 1
put 1+2:n15 -1 => yes; put 1+8:n15 -1 => yes; held 1+4:n15 => 0; held 1+0:c1 => ' '
// members stand at multiples of their alignments, and nothing stands between them
make gap 'A' 7 => 0; held 0+0:c1 => 'A'; held 0+8:n63 => 7; held 0+1:n63 => wrong; held 0+4:n63 => wrong
held 0+0:n63 => wrong; held 0+1:c1 => wrong; held 0+7:c1 => wrong; held 0+16:c1 => wrong; put 0+7:n63 1 => no
held 0+8:n63 => 7
// another precision, length or type of the same size is no part
make n16 5 => 0; held 0+0:n31 => wrong; number 0+0:n31 => none; put 0+0:n31 1 => no; store 0+0:n31 1 => wrong
held 0+0:c4 => wrong; make c1 'A' => 1; held 1+0:b8 => wrong; held 1+0:b1 => wrong; make c4 'ABCD' => 2
held 2+0:c3 => wrong; held 2+0:n31 => wrong; make v3 'AB' => 3; text 3+0:v1 => none; append 3+0:v9 'C' 9 => no
held 0 => 5; held 3 => 'AB'
// aggregates hold no one value
make pairs 'A' 1 'B' 2 'C' 3 => 0; held 0 => wrong; held 0+4:pair => wrong; number 0 => none; text 0+4:pair => none
store 0 1 => wrong; store 0+4:pair 'B' => wrong; put 0 1 => no; append 0 'A' 9 => no; held 0+6:n15 => 2
// subscripts lead from the low bound on
make row 10 20 30 => 0; held 0+0+-1@-1*4:n31 => 10; held 0+0+0@-1*4:n31 => 20; held 0+0+1@-1*4:n31 => 30
held 0+0+2@-1*4:n31 => wrong; put 0+0+1@-1*4:n31 40 => yes; held 0+8:n31 => 40; held 0+1:n31 => wrong
held 0+2:n31 => wrong; held 0+12:n31 => wrong; put 0+12:n31 1 => no; put 0+6:n31 1 => no; held 0+4:n31 => 20
// of two subscripts the second goes fastest
make grid 1 2 3 4 5 6 => 0; held 0+0+2@2*2:n15 => 1; held 0+0+4@2*2:n15 => 3; held 0+0+1@0*6:n15 => 4
held 0+6+3@2*2:n15 => 5; held 0+0+1@0*6+4:n15 => 6; held 0+6+5@2*2:n15 => wrong; put 0+0+1@0*6+2:n15 7 => yes
held 0+8:n15 => 7; held 0+6:n15 => 4; held 0+10:n15 => 6
// elements of an array in an array
make rows 1 2 3 4 5 6 => 0; held 0+0+6@5*12+4:n31 => 5; held 0+0+5@5*12+8:n31 => 3; copy 0+0:row 0+12:row
held 0+12:n31 => 1; held 0+16:n31 => 2; held 0+20:n31 => 3; copy 0+4:row 0+12:row => wrong; held 0+24:n31 => wrong
make row 7 8 9 => 1; copy 1 0+0:row; held 0+8:n31 => 9; held 0+12:n31 => 1; copy 0+12:row 1; held 1+8:n31 => 3
// members of the elements of an array
make pairs 'A' 1 'B' 2 'C' 3 => 0; held 0+0+2@1*4+2:n15 => 2; put 0+0+3@1*4+2:n15 9 => yes; held 0+10:n15 => 9
held 0+0+3@1*4:c1 => 'C'; held 0+0+4@1*4:c1 => wrong; held 0+0+4@1*4+2:n15 => wrong; store 0+0+1@1*4:c1 'X'
held 0+0:c1 => 'X'; held 0+2:n15 => 1; held 0+4:c1 => 'B'; held 0+2+2@1*4:n15 => 2; held 0+2:c1 => wrong
// a structure in a structure
make nest 'A' 1 2 'B' 3 => 0; held 0+2:n15 => 1; held 0+4:n15 => 2; held 0+8:n15 => 3; held 0+6:c1 => 'B'
held 0+6:n15 => wrong; copy 0+0:pair 0+6:pair; held 0+6:c1 => 'A'; held 0+8:n15 => 1; held 0+4:n15 => 2
copy 0+4:n15 0+2:n15; held 0+2:n15 => 2; copy 0+0:pair 0+4:pair => wrong; copy 0+2:pair 0+6:pair => wrong
// a structure of one member is not the member
make lones 4 5 => 0; held 0+4:n31 => 5; copy 0+0:lone 0+4:lone; held 0+4:n31 => 4; copy 0+0:lone 0+4:n31 => wrong
held 0+0:lone => wrong; make lone 7 => 1; make n31 8 => 2; copy 2 1+0:n31; held 1+0:n31 => 8; copy 1 2 => wrong
copy 2 1 => wrong; copy 1 0+4:lone; held 0+4:n31 => 8; held 0+0:n31 => 4
// an array without elements has no parts
make empty => 0; held 0 => wrong; held 0+0:n15 => wrong; put 0+0:n15 1 => no; copy 0 0; make empty => 1; copy 0 1
copy 0+1:empty 1 => wrong; end 0; copy 0 1 => E4; copy 1 0 => E4; make empty 1 => wrong; make empty => 2
// a string of fixed length has just that
make c3 => 0; store 0 'ABC'; held 0 => 'ABC'; store 0 'AB' => wrong; store 0 'ABCD' => wrong; store 0 '' => wrong
held 0 => 'ABC'; text 0 => 'ABC'; append 0 'D' 9 => no; append 0 '' 9 => no; text 0 => 'ABC'; number 0 => none
make letters => 1; store 1+2:c1 'X'; held 1+1:c1 => ' '; held 1+2:c1 => 'X'; held 1+3:c1 => ' '
// a varying string has up to its greatest length
make v3 => 0; text 0 => ''; store 0 'A'; text 0 => 'A'; store 0 'ABC'; text 0 => 'ABC'; store 0 'ABCD' => wrong
text 0 => 'ABC'; store 0 'D'; held 0 => 'D'; store 0 ''; held 0 => ''; make v1 'A' => 1; append 1 'B' 9 => no
store 1 ''; append 1 'B' 9 => yes; held 1 => 'B'
// characters are put after others up to the greatest length
make v9 => 0; append 0 'ABC' 9 => yes; text 0 => 'ABC'; append 0 'DEF' 9 => yes; append 0 '' 9 => yes
append 0 'GHIJ' 9 => no; text 0 => 'ABCDEF'; append 0 'GHI' 9 => yes; text 0 => 'ABCDEFGHI'; append 0 'J' 99 => no
append 0 '' 99 => yes; held 0 => 'ABCDEFGHI'
// no more characters are put after others than there is room for
make v9 'ABC' => 0; append 0 'DE' 4 => no; held 0 => 'ABC'; append 0 'D' 4 => yes; append 0 '' 4 => yes
append 0 '' 3 => no; append 0 'E' 4 => no; append 0 'E' 5 => yes; held 0 => 'ABCDE'; append 0 '' 0 => no; make v9 => 1
append 1 '' 0 => yes; append 1 'A' 0 => no; held 1 => ''
// a string that is shortened and lengthened shows nothing of what stood after it
make v9 'ABCDEFGHI' => 0; store 0 'X'; held 0 => 'X'; append 0 'Y' 9 => yes; held 0 => 'XY'; append 0 '' 9 => yes
held 0 => 'XY'; store 0 ''; text 0 => ''; append 0 'PQ' 9 => yes; text 0 => 'PQ'; store 0 'RSTUVWXYZ'
held 0 => 'RSTUVWXYZ'; make v9 'K' => 1; copy 1 0; held 0 => 'K'; append 0 'L' 9 => yes; held 0 => 'KL'
// strings that vary leave those beside them
make words 'A' '' 'BCD' 'E' => 0; append 0+6:v3 'XYZ' 3 => yes; held 0+0:v3 => 'A'; held 0+12:v3 => 'BCD'
append 0+0:v3 'BC' 3 => yes; held 0+6:v3 => 'XYZ'; append 0+12:v3 'E' 9 => no; store 0+18:v3 'FGHI' => wrong
held 0+18:v3 => 'E'; held 0+5:v3 => wrong; append 0+5:v3 'A' 9 => no; held 0+0+2@0*6:v3 => 'BCD'; store 0+12:v3 ''
held 0+6:v3 => 'XYZ'; held 0+18:v3 => 'E'
// bits whose last byte is not full
make b9 => 0; store 0 '111111111'B; held 0 => '111111111'B; store 0 '000000001'B; held 0 => '000000001'B
store 0 '10'B => wrong; store 0 '0000000001'B => wrong; held 0 => '000000001'B; make b1 '1'B => 1; held 1 => '1'B
store 1 '0'B; held 1 => '0'B; store 1 '10'B => wrong; make b8 '10000001'B => 2; held 2 => '10000001'B
// bits leave those beside them
make flags '111111111111'B '000000000000'B '101010101010'B '000000000001'B => 0; store 0+2:b12 '100000000001'B
held 0+0:b12 => '111111111111'B; held 0+0+2@1*2:b12 => '100000000001'B; held 0+4:b12 => '101010101010'B
held 0+6:b12 => '000000000001'B; held 0+1:b12 => wrong; held 0+8:b12 => wrong; copy 0+0:b12 0+6:b12
held 0+6:b12 => '111111111111'B; held 0+4:b12 => '101010101010'B
// what a generation holds is put into another, and neither changes with the other then
make pair 'A' 1 => 0; make pair 'B' 2 => 1; copy 0 1; held 1+0:c1 => 'A'; held 1+2:n15 => 1; put 0+2:n15 5 => yes
held 1+2:n15 => 1; store 1+0:c1 'C'; held 0+0:c1 => 'A'; make v3 'XYZ' => 2; make v3 'A' => 3; copy 3 2; held 2 => 'A'
append 2 'B' 3 => yes; held 3 => 'A'; held 2 => 'AB'; end 3; held 2 => 'AB'
// a part is put into another generation at another offset, and nothing else changes
make pairs 'A' 1 'B' 2 'C' 3 => 0; make nest => 1; copy 0+4:pair 1+6:pair; held 1+6:c1 => 'B'; held 1+8:n15 => 2
held 1+4:n15 => 0; held 1+0:c1 => ' '; held 1+2:n15 => 0; copy 0+10:n15 1+4:n15; held 1+4:n15 => 3
copy 1+6:pair 0+0:pair; held 0+0:c1 => 'B'; held 0+2:n15 => 2; held 0+4:c1 => 'B'; held 0+10:n15 => 3
// descriptions of one size are not equal
make n16 1 => 0; make n31 2 => 1; copy 0 1 => wrong; copy 1 0 => wrong; held 1 => 2; make row => 2; make grid => 3
copy 2 3 => wrong; make pairs => 4; copy 2 4 => wrong; copy 4 3 => wrong; copy 2+0:n31 1; held 1 => 0; make c3 => 5
make v1 => 6; copy 5 6 => wrong; make n15 9 => 7; make n1 1 => 8; copy 8 7 => wrong; held 7 => 9
// parts of one generation
make records 'AB' '101010101'B 5 'Y' 'C' '000000000'B 6 'Z' => 0; copy 0+0:record 0+24:record; held 0+24:v3 => 'AB'
held 0+29:b9 => '101010101'B; held 0+32:n63 => 5; held 0+40:c1 => 'Y'; store 0+24:v3 'Q'; held 0+0:v3 => 'AB'
put 0+8:n63 7 => yes; copy 0+0+1@1*24+8:n63 0+0+2@1*24+8:n63; held 0+32:n63 => 7; held 0+24:v3 => 'Q'
copy 0+24:record 0+0:record; held 0+0:v3 => 'Q'; held 0+17:c1 => wrong
// what is put at its own place stays, and parts that meet otherwise are not equal
make pairs 'A' 1 'B' 2 'C' 3 => 0; copy 0 0; copy 0+4:pair 0+4:pair; copy 0+6:n15 0+6:n15; copy 0+4:c1 0+4:c1
copy 0 0+4:pair => wrong; copy 0+4:pair 0 => wrong; copy 0+4:pair 0+4:c1 => wrong; held 0+0:c1 => 'A'; held 0+2:n15 => 1
held 0+4:c1 => 'B'; held 0+6:n15 => 2; held 0+8:c1 => 'C'; held 0+10:n15 => 3; make v9 'ABC' => 1; copy 1 1
append 1 'D' 9 => yes; held 1 => 'ABCD'
// the source is looked at before the target
make n15 1 => 0; make n15 2 => 1; end 0; copy 0 1 => E4; held 1 => 2; copy 1 0 => E4; copy 0+1:n15 1 => E4
copy 1+1:n15 0 => wrong; copy 0 1+1:n15 => E4; copy 1 1+1:n15 => wrong; copy 0 1+0:n31 => E4; held 1 => 2
// more bytes than are moved at once
make strip => 0; make strip => 1; put 0+0:n31 1 => yes; put 0+252:n31 2 => yes; put 0+256:n31 3 => yes
put 0+508:n31 4 => yes; put 0+512:n31 5 => yes; put 0+764:n31 6 => yes; put 0+768:n31 7 => yes; put 0+796:n31 8 => yes
copy 0 1; held 1+0:n31 => 1; held 1+252:n31 => 2; held 1+256:n31 => 3; held 1+508:n31 => 4; held 1+512:n31 => 5
held 1+764:n31 => 6; held 1+768:n31 => 7; held 1+796:n31 => 8; held 1+260:n31 => 0; held 1+800:n31 => wrong
// one part is reached in many ways
make pairs => 0; put 0+10:n15 7 => yes; held 0+0+3@1*4+2:n15 => 7; held 0+8+1@0*2:n15 => 7; held 0+2+2@0*4:n15 => 7
held 0+4+0@-6*1:n15 => 7; held 0+0+10@0*1:n15 => 7; held 0+0+100@90*1:n15 => 7; held 0+0+5@0*2:n15 => 7
held 0+9+0@0*99+1:n15 => 7; put 0+0+2@0*4+2:n15 8 => yes; held 0+10:n15 => 8
// offsets past the end lead nowhere, and no place lies more than 1,000,000 bytes after the beginning
make n15 7 => 0; held 0+1000000:n15 => wrong; held 0+1000001:n15 => far; held 0+4294967295:n15 => far
held 0+999999+1@0*1:n15 => wrong; number 0+999999+2@0*1:n15 => far; put 0+999999+1@0*1+1:n15 1 => far
number 0+999998+1@0*1+1:n15 => none; put 0+999998+1@0*1+1:n15 1 => no; store 0+4294967295+1@0*1:n15 1 => far
held 0+0+2147483647@-2147483648*4294967295:n15 => far; text 0+1000001:n15 => far; append 0+1000001:v3 'A' 9 => far
held 0+4294967295+2147483647@-2147483648*4294967295+4294967295:n15 => far; copy 0+1000001:n15 0 => far
copy 0 0+1000001:n15 => far; copy 0+1000000:n15 0 => wrong; held 0 => 7; end 0; held 0+1000000:n15 => E4
held 0+1000001:n15 => far
// 16,777,216 bytes may live, and no byte more; where there is no room, nothing changes
make hall => 0; make hall => 1; make hall => 2; make hall => 3; make hall => 4; make hall => 5; make hall => 6
make hall => 7; make hall => 8; make hall => 9; make hall => 10; make hall => 11; make hall => 12; make hall => 13
make hall => 14; make hall => 15; room hall => yes; make hall => 16; room hall => no; make hall => E12
make c32767 => 17; room c32767 => yes; make c32767 => 18; room c32767 => no; room c512 => yes; make n15 7 => 19
room c512 => no; make c512 => E12; end 19; make c512 => 20; room c1 => no; make c1 => E12; make b1 => E12
dummy n15 1 => E12; held 19 => E4; room empty => yes; make empty => 21; copy 17 18; end 20; room c512 => yes
make n15 8 => 22; held 22 => 8; make c512 => E12; held 22 => 8; end 22; make c512 => 23; room b1 => no
// no room is answered before values that scalars may not hold; of a dummy the value is looked at first
make hall => 0; make hall => 1; make hall => 2; make hall => 3; make hall => 4; make hall => 5; make hall => 6
make hall => 7; make hall => 8; make hall => 9; make hall => 10; make hall => 11; make hall => 12; make hall => 13
make hall => 14; make hall => 15; make hall => 16; make c32767 => 17; make c32767 => 18; make c512 => 19
make n15 'A' => E12; make p => E12; room p => no; make pair 1 => E12; dummy n15 'A' => wrong; dummy n15 1 => E12
make empty 1 => wrong; make empty => 20; end 19; make p 1 => wrong; dummy n15 1 => 21
// what has ended gives its bytes back, once
make hall => 0; make hall => 1; make hall => 2; make hall => 3; make hall => 4; make hall => 5; make hall => 6
make hall => 7; make hall => 8; make hall => 9; make hall => 10; make hall => 11; make hall => 12; make hall => 13
make hall => 14; make hall => 15; make hall => 16; make hall => E12; end 3; end 3; end 3 3; make hall => 17
make hall => E12; end 0 1 2 4 5 6 7 8; room hall => yes; make hall => 18; end 9 10 11 12 13 14 15 16 17 18
make hall => 19; make hall => 20; held 18+0:c32767 => E4; held 3+0:c32767 => E4";

#[test]
fn worked(rt: HostRuntime) {
    run(&rt, rt.alloc(), SEQUENCES);
}
