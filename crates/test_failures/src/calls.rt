//! The table of calls, and the documented rows.

/// Calls of the libraries.
pub const CALLS: &str = r"read table
reads table
table @version 1\n@implicitweights 17000..18AFF; FB00\n0020 ; [*0209.0020.0002]\n
table 0061 ; [.1C47.0020.0002]\n0061 0301 ; [.1C50.0020.0002][.0000.0024.0002]\n
table 0301 ; [.0000.0024.0002]\n
printed @version 1\n@implicitweights 17000..18AFF; FB00\n0020 ; [*0209.0020.0002]\n
printed 0061 ; [.1C47.0020.0002]\n0061 0301 ; [.1C50.0020.0002][.0000.0024.0002]\n
printed 0301 ; [.0000.0024.0002]\n
end done
asks 25
memory line @ 1 2 3 5 6 7

read table
reads table
table @version 1\n
table 0061 ; [.1C47.0020.0002]\n0062 ; [.1C47.0020.0002]\n0063 ; [.1C47.0020.0002]\n0064 ; [.1C47.0020.0002]\n
table 0065 ; [.1C47.0020.0002]\n0066 ; [.1C47.0020.0002]\n0067 ; [.1C47.0020.0002]\n0068 ; [.1C47.0020.0002]\n
table 0069 ; [.1C47.0020.0002]\n006A ; [.1C47.0020.0002]\n006B ; [.1C47.0020.0002]\n006C ; [.1C47.0020.0002]\n
table 006D ; [.1C47.0020.0002]\n006E ; [.1C47.0020.0002]\n006F ; [.1C47.0020.0002]\n0070 ; [.1C47.0020.0002]\n
table 0071 ; [.1C47.0020.0002]\n
printed @version 1\n
printed 0061 ; [.1C47.0020.0002]\n0062 ; [.1C47.0020.0002]\n0063 ; [.1C47.0020.0002]\n0064 ; [.1C47.0020.0002]\n
printed 0065 ; [.1C47.0020.0002]\n0066 ; [.1C47.0020.0002]\n0067 ; [.1C47.0020.0002]\n0068 ; [.1C47.0020.0002]\n
printed 0069 ; [.1C47.0020.0002]\n006A ; [.1C47.0020.0002]\n006B ; [.1C47.0020.0002]\n006C ; [.1C47.0020.0002]\n
printed 006D ; [.1C47.0020.0002]\n006E ; [.1C47.0020.0002]\n006F ; [.1C47.0020.0002]\n0070 ; [.1C47.0020.0002]\n
printed 0071 ; [.1C47.0020.0002]\n
end done
asks 53
memory line @ 1 2 6 10 18 19

read table
reads table
table @version 1\n0061 ; [.1C47.0020.0002]\n0061 ; [.1C47.0020.0002]\n
end line 3: DuplicateKey
asks 9
memory line @ 1 2

read data
reads data
data @data 1\nccc 0300..0314 230\nccc 0323..0323 220\n
data core 4E00..9FFF\nother 20000..20FFF\n
printed \xE6\xDC\x01\x01
end done
asks 6
memory line @ 1 2 4 5

read certificate
reads certificate
printed 1 1C47 1C47 0001\n2 0020 0020 0001\n2 0024 0024 0001\n3 0002 0002 0001\n
end done
asks 4
memory line @ 1 2 4

read lines
reads input
input xxx\n\nxxxxxxxxxxxxxxxxxxxxxxxxxxxxxxxxxxxxxxxxxxxxxxxxxxxxxxxxxxxx\nx
printed xxxxxxxxxxxxxxxxxxxxxxxxxxxxxxxxxxxxxxxxxxxxxxxxxxxxxxxxxxxxxxxx
end done
asks 2
memory line @ 1 3

read rules
printed a x b \nb y \ny z \n
end done
asks 11
memory byte @ 0 4 8 16 1 10 18

write table
printed @version 1\n0061 ; [.1C47.0020.0002]\n0301 ; [.0000.0024.0002]\n
end done
asks 0

write certificate
printed 1 0209 0209 0001\n1 1C47 1C47 0001\n1 1C60 1C60 0001\n
printed 2 0020 0020 0001\n2 0024 0024 0002\n2 002C 002C 0001\n3 0002 0002 0001\n3 0008 0008 0001\n
end done
asks 0

make properties
printed \xE6\xDC\x01\x01
end done
asks 4
memory out of memory

make key list
printed a\xCC\x81\xCC\x80;x\xCC\x81; ;a\xCC\x81;a;b;\xCC\x81;
end done
asks 1
memory memory

make key map
printed \x00\x01\x02\x03\x04\x05\x06\xFF
end done
asks 14
memory memory

make trie
printed \x1C\x58\x1C\x90\x1C\x50\x1C\x60\x00\x00\x00\x20\x00\x20\x00\x20\x00\x20
printed \x00\x00\x00\x02\x00\x02\x00\x02\x00\x02
end done
asks 22
memory memory

make key
printed \x1C\x47\x1C\x60\x00\x00\x00\x20\x00\x20\x00\x24\x00\x00\x00\x02\x00\x02\x00\x02
printed \x00\x00\xFF\xFF\x02\x09\xFF\xFF\xFF\xFF
printed \x00\x00\x00\x00\x61\x00\x00\x20\x00\x00\x62\x00\x03\x01
end done
asks 8
memory memory

make key in a buffer
printed \x1C\x47\x1C\x60\x00\x00\x00\x20\x00\x20\x00\x24\x00\x00\x00\x02\x00\x02\x00\x02
printed \x00\x00\xFF\xFF\x02\x09\xFF\xFF\xFF\xFF
printed \x00\x00\x00\x00\x61\x00\x00\x20\x00\x00\x62\x00\x03\x01
end done
asks 8
memory memory

make key of elements
printed \x1C\x47\x1C\x60\x00\x00\x00\x20\x00\x20\x00\x24\x00\x00\x00\x02\x00\x02\x00\x02
printed \x00\x00\xFF\xFF\x02\x09\xFF\xFF\xFF\xFF
end done
asks 7
memory memory

make key by a writer
printed \x1C\x47\x1C\x60\x00\x00\x00\x20\x00\x20\x00\x24\x00\x00\x00\x02\x00\x02\x00\x02
printed \x00\x00\xFF\xFF\x02\x09\xFF\xFF\xFF\xFF
end done
asks 14
memory Memory

make audit
end done
asks 39
memory refused 12 Memory

make plan
file 1 1C47 1C47 0001\n2 0020 0020 0001\n2 0024 0024 0001\n3 0002 0002 0001\n
printed @version 1\n0061 ; [.1C47.0020.0002]\n0301 ; [.0000.0024.0002]\n
printed 0078 ; [.1C48.0020.0002]\n
end done
asks 48
memory Memory";

/// The calls after the commands.
pub const COMMANDS: &str = r"run check
reads table data
printed well-formed\n
end true
asks 19
memory table line @ 1 2 3 4; data line @ 1 2

run check
reads table data
table @version 1\n0061 ; [.1C47.0020.0002]\n0301 ; [.0000.0024.0002]\n
table 0061 0300 0301 ; [.1C58.0020.0002]\n
printed WF5 row 3\n
end false
asks 25
memory table line @ 1 2 3 4 5; data line @ 1 2

run keys
reads table data input
input a\naaaaa\n\n\xC3\xA1\na
printed 1C47 0000 0020 0000 0002\n
printed 1C47 1C47 1C47 1C47 1C47 0000 0020 0020 0020 0020 0020 0000 0002 0002 0002 0002 0002\n
printed 0000 0000\n
printed 1C47 0000 0020 0024 0000 0002 0002\n
printed 1C47 0000 0020 0000 0002\n
end done
asks 33
memory table line @ 1 2 3; data line @ 1 2; memory; input line @ 1 2

run keys
reads table data input
input a\n\xFF\n
printed 1C47 0000 0020 0000 0002\n
end input line 2: Utf8, status 1
asks 31
memory table line @ 1 2 3; data line @ 1 2; memory; input line @ 1

run identical keys
reads table data input
input a\n
printed 1C47 0000 0020 0000 0002 0000 000061\n
end done
asks 31
memory table line @ 1 2 3; data line @ 1 2; memory; input line @ 1

run keyed lines
reads table data input
input a\naaaaa\n\n\xC3\xA1\na
printed 1C470000002000000002\ta\n
printed 1C471C471C471C471C47000000200020002000200020000000020002000200020002\taaaaa\n
printed 00000000\t\n
printed 1C47000000200024000000020002\t\xC3\xA1\n
printed 1C470000002000000002\ta\n
end done
asks 33
memory table line @ 1 2 3; data line @ 1 2; memory; input line @ 1 2

run keyed lines
reads table data input
input a\n\xFF\n
printed 1C470000002000000002\ta\n
end input line 2: Utf8, status 1
asks 31
memory table line @ 1 2 3; data line @ 1 2; memory; input line @ 1

run identical keyed lines
reads table data input
input a\n
printed 1C4700000020000000020000000061\ta\n
end done
asks 29
memory table line @ 1 2 3; data line @ 1 2; memory; input line @ 1

run affected
reads data rules input
input x\nxaaaaaaaaaaaaaaaaaa\na\na
printed x\nxaaaaaaaaaaaaaaaaaa\n
end done
asks 14
memory data line @ 1 2; rules: Memory; rules byte @ 0 4 1 6; input line @ 1 2

run affected
reads data rules input
input x\n\xFF\n
printed x\n
end input line 2: Utf8, status 1
asks 13
memory data line @ 1 2; rules: Memory; rules byte @ 0 4 1 6; input line @ 1

run sort
reads table data input
input b\na\n\xC3\xA1\n\na
printed \na\na\n\xC3\xA1\nb\n
end done
asks 35
memory table line @ 1 2 3; data line @ 1 2; memory; input line @ 1; memory; input line @ 5; memory

run sort
reads table data input
input u\na\nb\nc\nd\ne\nf\ng\nh\ni\nj\nk\nl\nm\nn\no\np\nq\nr\ns\nt\n
printed a\nb\nc\nd\ne\nf\ng\nh\ni\nj\nk\nl\nm\nn\no\np\nq\nr\ns\nt\nu\n
end done
asks 40
memory table line @ 1 2 3; data line @ 1 2; memory; input line @ 1; memory; input line @ 5; memory
memory input line @ 9; memory; input line @ 17; memory

run sort
reads table data input
input aaaaaaaa\xC3\xA1\naaaaaaaaa\n
printed aaaaaaaaa\naaaaaaaa\xC3\xA1\n
end done
asks 46
memory table line @ 1 2 3; data line @ 1 2; memory; input line @ 1; memory; input line @ 2; memory

run compare
reads table data
printed < 1\n
end done
asks 26
memory table line @ 1 2 3; data line @ 1 2; memory; left: Memory

run tailor
reads table data rules
file 1 1C47 1C47 0001\n2 0020 0020 0001\n2 0024 0024 0001\n3 0002 0002 0001\n
printed @version 1\n0061 ; [.1C47.0020.0002]\n0301 ; [.0000.0024.0002]\n
printed 0078 ; [.1C48.0020.0002]\n
end done
asks 75
memory table line @ 1 2 3 4; data line @ 1 2; rules: Memory; rules byte @ 0 4 1 6; memory

run tailor
reads table data rules
rules &a <* b-g
file 1 1C47 1C47 0001\n2 0020 0020 0001\n2 0024 0024 0001\n3 0002 0002 0001\n
printed @version 1\n0061 ; [.1C47.0020.0002]\n0301 ; [.0000.0024.0002]\n
printed 0062 ; [.1C48.0020.0002]\n0063 ; [.1C49.0020.0002]\n0064 ; [.1C4A.0020.0002]\n
printed 0065 ; [.1C4B.0020.0002]\n0066 ; [.1C4C.0020.0002]\n0067 ; [.1C4D.0020.0002]\n
end done
asks 101
memory table line @ 1 2 3 4; data line @ 1 2; rules: Memory; rules byte @ 0 4 8 1 6 9; memory

run tailor
reads table data rules
rules &\\u0301 < x
end tailor relation 1: Anchor, status 1
asks 46
memory table line @ 1 2 3 4; data line @ 1 2; rules: Memory; rules byte @ 0 4 8 1 11; memory

run audit
reads base data rules tailored certificate
printed accepted\n
end true
asks 87
memory base line @ 1 2 3 4; data line @ 1 2; rules: Memory; rules byte @ 0 4 1 6
memory tailored line @ 1 2 3 5; certificate line @ 1 2 4; memory

run audit
reads base data rules tailored certificate
rules &a <* b-r
tailored @version 1\n0061 ; [.1C47.0020.0002]\n0301 ; [.0000.0024.0002]\n
tailored 0062 ; [.1C48.0020.0002]\n0063 ; [.1C49.0020.0002]\n0064 ; [.1C4A.0020.0002]\n0065 ; [.1C4B.0020.0002]\n
tailored 0066 ; [.1C4C.0020.0002]\n0067 ; [.1C4D.0020.0002]\n0068 ; [.1C4E.0020.0002]\n0069 ; [.1C4F.0020.0002]\n
tailored 006A ; [.1C50.0020.0002]\n006B ; [.1C51.0020.0002]\n006C ; [.1C52.0020.0002]\n006D ; [.1C53.0020.0002]\n
tailored 006E ; [.1C54.0020.0002]\n006F ; [.1C55.0020.0002]\n0070 ; [.1C56.0020.0002]\n0071 ; [.1C57.0020.0002]\n
tailored 0072 ; [.1C58.0020.0002]\n
printed accepted\n
end true
asks 166
memory base line @ 1 2 3 4; data line @ 1 2; rules: Memory; rules byte @ 0 4 8 1 6 9
memory tailored line @ 1 2 3 6 10 18 21
memory certificate line @ 1 2 4; memory

run audit
reads base data rules tailored certificate
rules &a <<< x
printed refused 9 NotPlaced relation 1\n
end false
asks 77
memory base line @ 1 2 3 4; data line @ 1 2; rules: Memory; rules byte @ 0 4 1 8
memory tailored line @ 1 2 3 5; certificate line @ 1 2 4; memory";

/// What is documented of failures, a case for each. `fails` names the stream and the number of bytes that go well.
/// `refused after` has an end of the call: of the allocations from the first on that is rejected with it, one is rejected
/// with the end of the case. What goes out is what goes out then.
pub const ROWS: &str = r"run keys
reads table data input
input a\na\naaaaa\n
printed 1C47 0000 0020 0000 0002\n1C47 0000 0020 0000 0002\n
end input line 3: Memory, status 4
refused after input line 1: Memory, status 4

run sort
reads table data input
input b\naaaaa\n
end input line 2: Memory, status 4
refused after input line 1: Memory, status 4

run sort
reads table data input
input b\na\n
end memory, status 4
refused after input line 1: Memory, status 4

run sort
reads table data input
input u\na\nb\nc\nd\ne\nf\ng\nh\ni\nj\nk\nl\nm\nn\no\np\nq\nr\ns\nttttttttt\n
end memory, status 4
refused after input line 21: Memory, status 4

run keys
reads table data input
input a\n
end data line 2: Memory, status 4
refused after table line 3: Memory, status 4

run audit
reads base data rules tailored certificate
end rules: Memory, status 4
refused after data line 2: Memory, status 4

run keys
reads table data input
input a\n
end table line 1: Read, status 3
fails table 10

run keys
reads table data input
input a\n
end table line 2: Read, status 3
fails table 11

run sort
reads table data input
input b\na\n
printed a\nb
end output: Write after 3, status 3
fails out 3

run sort
reads table data input
input b\na\n
printed a\nb\n
end done

run audit
reads base data rules tailored certificate
end output: Write after 0, status 3
fails out 0

write certificate
printed 1 0209 0209 0001\n
end the writer failed after 17 bytes
fails out 17

run tailor
reads table data rules
file 1 1C47 1C47 0001\n
end certificate: Write after 17, status 3
fails file 17";
