//! Assembler texts and their images, in both directions, and the errors of wrong texts.
#![tactic(auto, unfolding(crate::proofs::InputOnLiterals::input_on_literals))]

ghost use Rattle.std.specs.Prelude.{ℕ, ◌<◌, ◌^◌, ◌≡◌, ◌∷◌, ◌++◌, [], Ok, Err, Some, codes, replicate};
ghost use Rattle.asm_defs.specs.Views.Assembling.{no_labels};
ghost use Rattle.asm_defs.specs.Assembler.{first_draft, draft_after, assembled};
ghost use Rattle.asm_defs.specs.Disassembler.{disassembled};
ghost use Rattle.machine_defs.specs.Machine.{decode_of, encode_of};
ghost use Rattle.machine_defs.specs.Mnemonics.{mnemonic_named, mnemonic_text, fields_of, instr_with};
ghost use Rattle.run_defs.specs.References.{block_image, net_image, sound_image};
ghost use Rattle.nook_data.specs.Valid.{IsValidImage};
ghost use Rattle.asm_defs.specs.declared.assembler.AsmKind.TheVariants as fault;
ghost use Rattle.nook_data.specs.declared.machine.Mnemonic.{Mnemonic};
ghost use Rattle.asm_defs.specs.declared.assembler.Section.TheVariants as section;
ghost use Rattle.nook_data.specs.declared.machine.Instr.{Instr};
ghost use Rattle.worked_rows.specs.Drivers.{block_text, failing_block_text, failing_block_image, net_text, sound_text};
ghost use Rattle.worked_rows.specs.Texts.{asm_output, dis_output, lying_text, lying_json, lying_numbers};

use nook_data::scenario::Image;

/// The text of the block driver assembles to its image.
pub fn block_driver_assembles()
    ensures { assembled block_text ≡ Ok block_image }
{}

/// The text of the block driver for disks that fail assembles to its image.
pub fn failing_block_driver_assembles()
    ensures { assembled failing_block_text ≡ Ok failing_block_image }
{}

/// The text of the net driver assembles to its image.
pub fn net_driver_assembles()
    ensures { assembled net_text ≡ Ok net_image }
{}

/// The text of the sound driver assembles to its image.
pub fn sound_driver_assembles()
    ensures { assembled sound_text ≡ Ok sound_image }
{}

/// The text that is written for any valid image assembles to that image.
#[tactic(auto, using(asm_defs::proofs::AsmWhole::comes_back))]
pub fn images_come_back(image: &Image)
    requires { IsValidImage image.now }
    ensures { assembled (disassembled image.now) ≡ Ok image.now }
{}

/// A word that decodes to an instruction is the only word of that instruction.
#[tactic(auto, using(machine_defs::proofs::Words::encodes_back))]
pub fn decoded_words_encode_back()
    ensures { (word : ℕ) (instr : Instr) → word < 2 ^ 32 → decode_of word ≡ Some instr → encode_of instr ≡ word }
{}

/// The texts written for the reference drivers' images assemble to those images, by computation.
pub fn reference_drivers_come_back()
    ensures block { assembled (disassembled block_image) ≡ Ok block_image }
    ensures failing { assembled (disassembled failing_block_image) ≡ Ok failing_block_image }
    ensures net { assembled (disassembled net_image) ≡ Ok net_image }
    ensures sound { assembled (disassembled sound_image) ≡ Ok sound_image }
{}

/// A text, and the bytes that `asm` writes for it.
pub fn asm_writes_an_image()
    ensures { asm_output lying_text ≡ lying_json }
{}

/// An image's JSON, and the text that `dis` writes for it.
pub fn dis_writes_a_text()
    ensures { dis_output lying_json ≡ lying_numbers }
{}

/// A name that is no mnemonic, in the third line.
pub fn unknown_mnemonic()
    ensures { asm_output (codes ".class block\na: LI r1 0\nFOO r1\n") ≡ codes "fault 8 bad_asm 2 line 3 /\n" }
{}

/// A second definition in a line is no statement. The number in the next line, which is too large, is not reported.
pub fn second_definition_in_a_line()
    ensures { asm_output (codes ".class block\nx: x: RET r0\nLI r1 70000\n") ≡ codes "fault 8 bad_asm 3 line 2 /\n" }
{}

/// An empty text has no class, which is reported at the line after its last.
pub fn empty_text()
    ensures { asm_output [] ≡ codes "fault 8 bad_asm 9 line 1 /\n" }
{}

/// A token is a whole run of bytes; a comment may contain any byte.
pub fn bad_tokens()
    ensures glued { asm_output (codes "x:LI r1 0") ≡ codes "fault 8 bad_asm 1 line 1 /\n" }
    ensures later { asm_output (codes "; \"any\" (byte)\nFOO 5x") ≡ codes "fault 8 bad_asm 1 line 2 /\n" }
    ensures hex { asm_output (codes "LI r1 0X1") ≡ codes "fault 8 bad_asm 1 line 1 /\n" }
    ensures sign { asm_output (codes "LI r1 -1") ≡ codes "fault 8 bad_asm 1 line 1 /\n" }
    ensures comment { asm_output (59 ∷ 255 ∷ 10 ∷ codes "FOO") ≡ codes "fault 8 bad_asm 2 line 2 /\n" }
{}

/// A line with several errors reports the smallest kind.
pub fn smallest_kind()
    ensures class { asm_output (codes ".class foo bar") ≡ codes "fault 8 bad_asm 2 line 1 /\n" }
    ensures register { asm_output (codes "r1: FOO") ≡ codes "fault 8 bad_asm 2 line 1 /\n" }
    ensures entry { asm_output (codes ".class net\n.entry foo 1 2") ≡ codes "fault 8 bad_asm 2 line 2 /\n" }
    ensures early { asm_output (codes ".entry foo 1 2") ≡ codes "fault 8 bad_asm 3 line 1 /\n" }
    ensures range { asm_output (codes "a: LI r1 0\na: LI r1 65536") ≡ codes "fault 8 bad_asm 4 line 2 /\n" }
    ensures double { asm_output (codes "a: LI r1 0\na: JMP nowhere") ≡ codes "fault 8 bad_asm 5 line 2 /\n" }
    ensures missing { asm_output (codes "a: JMP nowhere\na: LI r1 0") ≡ codes "fault 8 bad_asm 6 line 1 /\n" }
{}

/// Numbers at the ends of their ranges.
pub fn number_ranges()
    ensures immediate { asm_output (codes "KCALL 0x0000fFfF") ≡ codes "fault 8 bad_asm 9 line 2 /\n" }
    ensures over { asm_output (codes "KCALL 65536") ≡ codes "fault 8 bad_asm 4 line 1 /\n" }
    ensures word { asm_output (codes ".word 4294967295") ≡ codes "fault 8 bad_asm 9 line 2 /\n" }
    ensures long_word { asm_output (codes ".word 99999999999999999999999999999999")
        ≡ codes "fault 8 bad_asm 4 line 1 /\n" }
    ensures entry { asm_output (codes ".class net\n.entry init 2047\n.entry send 2048")
        ≡ codes "fault 8 bad_asm 4 line 3 /\n" }
    ensures data_entry { asm_output (codes ".class net\n.entry init x\n.data\nx: .word 0")
        ≡ codes "fault 8 bad_asm 4 line 2 /\n" }
{}

/// Something is given twice, even with the same value.
pub fn given_twice()
    ensures class { asm_output (codes ".class net\n.class net") ≡ codes "fault 8 bad_asm 5 line 2 /\n" }
    ensures entry { asm_output (codes ".class net\n.entry init 0\n.entry init 0")
        ≡ codes "fault 8 bad_asm 5 line 3 /\n" }
    ensures label { asm_output (codes "r16: RET r0\nr16: RET r0") ≡ codes "fault 8 bad_asm 5 line 2 /\n" }
{}

/// Each section has at most 2,048 words; one more is an error of its line.
pub fn too_many_words()
    ensures text { draft_after no_labels 9 (codes ".word" ∷ codes "0" ∷ [])
        (record first_draft { text = replicate 2048 0 }) ≡ Err fault.TextTooLong }
    ensures instr { draft_after no_labels 9 (codes "FAULT" ∷ []) (record first_draft { text = replicate 2048 0 })
        ≡ Err fault.TextTooLong }
    ensures initial { draft_after no_labels 9 (codes ".word" ∷ codes "0" ∷ [])
        (record first_draft { in_section = section.Data; initial = replicate 2048 0 }) ≡ Err fault.DataTooLong }
{}

/// Each mnemonic has its own name, and the mnemonic and the fields of an instruction make that instruction
/// again.
#[tactic(auto, using(asm_defs::proofs::AsmInstrs::named_mnemonic, machine_defs::proofs::Instructions::instr_of_fields))]
pub fn mnemonics_are_distinguished()
    ensures named { (m : Mnemonic) → mnemonic_named (mnemonic_text m) ≡ Some m }
    ensures made { (i : Instr) → instr_with (fields_of i).mnemonic (fields_of i).a (fields_of i).b (fields_of i).imm
        ≡ i }
{}
