//! Inputs of the program. Each disk has the same driver of two words, which serves every call with just a reply.

/// A disk, and a thread that reads one of its registers.
pub const SCENARIO: &str =
    r#"{"version":1,"parts":[{"name":"d0","class":"block","blocks":1,"driver":{"asm":".class block\n.entry init 0\n.entry read 1\n.entry write 1\n.entry get 1\n.entry set 1\nKCALL 3\nRET r0\n"}}],"threads":[{"name":"t0","ops":[{"part":0,"op":"get","key":0}]}]}"#;

/// The disk, and two threads, one with two such calls and one with three.
pub const TWO_THREADS: &str =
    r#"{"version":1,"parts":[{"name":"d0","class":"block","blocks":1,"driver":{"asm":".class block\n.entry init 0\n.entry read 1\n.entry write 1\n.entry get 1\n.entry set 1\nKCALL 3\nRET r0\n"}}],"threads":[{"name":"t0","ops":[{"part":0,"op":"get","key":0},{"part":0,"op":"get","key":0}]},{"name":"t1","ops":[{"part":0,"op":"get","key":0},{"part":0,"op":"get","key":0},{"part":0,"op":"get","key":0}]}]}"#;

/// The length of the scenario, the scenario, and its report.
pub const REPORT: &str = r#"253
{"version":1,"parts":[{"name":"d0","class":"block","blocks":1,"driver":{"asm":".class block\n.entry init 0\n.entry read 1\n.entry write 1\n.entry get 1\n.entry set 1\nKCALL 3\nRET r0\n"}}],"threads":[{"name":"t0","ops":[{"part":0,"op":"get","key":0}]}]}part 0 d0 block limit 0
1 invoke c1 t0 get 0
2 stage load
3 stage init
4 burst x16 c0 b1 n1 service 3 0 0 = 0
5 burst x16 c0 b2 n1 reply 0
6 stage resume
7 enter c1 x0 try 1
8 burst x0 c1 b3 n1 reply 0 -> value 0
config 0 0 0 0
failures 0
contract kept
thread 0 t0
1 p0 value 0
tap 0 total 0 kept
tap 1 total 3 kept
tap 2 total 1 kept
status 0
"#;

/// A campaign over the scenario, with one fault.
pub const CAMPAIGN: &str =
    r#"{"base":{"version":1,"parts":[{"name":"d0","class":"block","blocks":1,"driver":{"asm":".class block\n.entry init 0\n.entry read 1\n.entry write 1\n.entry get 1\n.entry set 1\nKCALL 3\nRET r0\n"}}],"threads":[{"name":"t0","ops":[{"part":0,"op":"get","key":0}]}]},"part":0,"faults":[{"burst":3,"after":0,"kind":"trap"}]}"#;

/// A campaign over the scenario with every trap, a guard and details; its table begins with the base's row.
pub const EVERY: &str =
    r#"{"base":{"version":1,"parts":[{"name":"d0","class":"block","blocks":1,"driver":{"asm":".class block\n.entry init 0\n.entry read 1\n.entry write 1\n.entry get 1\n.entry set 1\nKCALL 3\nRET r0\n"}}],"threads":[{"name":"t0","ops":[{"part":0,"op":"get","key":0}]}]},"part":0,"every":[{"kind":"trap"}],"guard":true,"detail":true}"#;

/// A campaign with two faults in its first member and one in its second, and details.
pub const MEMBERS: &str =
    r#"{"base":{"version":1,"parts":[{"name":"d0","class":"block","blocks":1,"driver":{"asm":".class block\n.entry init 0\n.entry read 1\n.entry write 1\n.entry get 1\n.entry set 1\nKCALL 3\nRET r0\n"}}],"threads":[{"name":"t0","ops":[{"part":0,"op":"get","key":0}]}]},"part":0,"members":[[{"burst":3,"after":0,"kind":"trap"},{"burst":4,"after":0,"kind":"trap"}],[{"burst":9,"after":0,"kind":"trap"}]],"detail":true}"#;

/// A mirror of two such disks, and a thread that reads it.
pub const MIRROR: &str =
    r#"{"version":1,"parts":[{"name":"d0","class":"block","blocks":1,"driver":{"asm":".class block\n.entry init 0\n.entry read 1\n.entry write 1\n.entry get 1\n.entry set 1\nKCALL 3\nRET r0\n"}},{"name":"d1","class":"block","blocks":1,"driver":{"asm":".class block\n.entry init 0\n.entry read 1\n.entry write 1\n.entry get 1\n.entry set 1\nKCALL 3\nRET r0\n"}}],"threads":[{"name":"t0","ops":[{"part":0,"op":"read","first":0,"count":1}]}]}"#;

/// The driver's text.
pub const TEXT: &str = r#".class block
.entry init 0
.entry read 1
.entry write 1
.entry get 1
.entry set 1
KCALL 3
RET r0
"#;

/// The driver's image.
pub const IMAGE: &str =
    r#"{"class":"block","data":[],"entries":{"get":1,"init":0,"read":1,"set":1,"write":1},"text":["16000003","17000000"]}
"#;
