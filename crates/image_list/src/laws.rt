//! Laws of listings: theorems over the definitions alone. Each is the contract of a public function with an empty body.

ghost use Rattle.std.specs.Prelude.{◌≡◌, ◌+◌, ℕ, List, Ok, Err, map, length};
ghost use Rattle.asm_defs.specs.Assembler.{assembled};
ghost use Rattle.asm_defs.specs.declared.assembler.AsmFault.{AsmFault};
ghost use Rattle.driver_asm.specs.Listed.{listed};
ghost use Rattle.driver_asm.specs.declared.listed.Listed.{Listed};
ghost use Rattle.image_list.specs.ListText.{initial_rows, list_text, text_rows};

/// The listing shows the assembled image: each of its text words and initial words has one row, and the rows are in the
/// order of the words.
pub fn every_word_is_listed()
    ensures image { (text : List ℕ) (l : Listed) → listed text ≡ Ok l
        → assembled text ≡ Ok l.image }
    ensures text { (text : List ℕ) (l : Listed) → listed text ≡ Ok l
        → map (λ row. row.word) (text_rows l) ≡ l.image.text }
    ensures initial { (text : List ℕ) (l : Listed) → listed text ≡ Ok l
        → map (λ row. row.word) (initial_rows l) ≡ l.image.initial }
{}

/// A text that does not assemble is refused with the assembler's error.
pub fn faults_are_the_assemblers()
    ensures { (text : List ℕ) (fault : AsmFault) → assembled text ≡ Err fault
        → list_text text ≡ Err fault }
{}
