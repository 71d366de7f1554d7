//! Scenarios and images read from bytes, and the first error of wrong inputs.
#![tactic(auto, unfolding(crate::proofs::InputOnLiterals::input_on_literals))]

ghost use Rattle.std.specs.Prelude.{◌≡◌, ◌∷◌, ◌++◌, [], Ok, codes, true, false};
ghost use Rattle.input_defs.specs.ImageReading.{image_of, image_from};
ghost use Rattle.asm_defs.specs.ImageText.{image_data, image_text};
ghost use Rattle.run_defs.specs.References.{sound_image};
ghost use Rattle.input_defs.specs.ScenarioReading.{scenario_from};
ghost use Rattle.nook_data.specs.Valid.{IsValidImage};
ghost use Rattle.worked_rows.specs.Drivers.{failing_block_image};
ghost use Rattle.worked_rows.specs.Texts.{
  scenario_fault,
  image_fault,
  driver_json,
  write_and_read_json,
  write_and_read,
  bad_block_json,
  bad_block,
};

use nook_data::scenario::Image;

/// The text of a scenario that writes a block and reads it back.
pub fn write_and_read_is_read()
    ensures { scenario_from write_and_read_json ≡ Ok write_and_read }
{}

/// A disk with a bad block, in the version that allows it.
pub fn bad_block_is_read()
    ensures { scenario_from (bad_block_json (codes "2")) ≡ Ok bad_block }
{}

/// Version 1 allows no bad blocks.
pub fn bad_block_of_version_1()
    ensures { scenario_fault (bad_block_json (codes "1")) ≡ codes "fault 2 unknown_key /parts/0\n" }
{}

/// The JSON value of any valid image is read as that image.
#[tactic(auto, using(input_defs::proofs::ImageBack::image_back))]
pub fn image_values_come_back(image: &Image)
    requires { IsValidImage image.now }
    ensures { image_of (image_data image.now) ≡ Ok image.now }
{}

/// The text of an image reads back as the image.
pub fn image_text_reads_back()
    ensures block { image_from (image_text failing_block_image) ≡ Ok failing_block_image }
    ensures sound { image_from (image_text sound_image) ≡ Ok sound_image }
{}

/// Bytes that are not JSON: truncated, not UTF-8, or with something after the value.
pub fn not_json()
    ensures cut { scenario_fault (codes "{\"version\":1,\"par") ≡ codes "fault 1 not_json /\n" }
    ensures empty { scenario_fault [] ≡ codes "fault 1 not_json /\n" }
    ensures no_text { scenario_fault (123 ∷ 255 ∷ 125 ∷ []) ≡ codes "fault 1 not_json /\n" }
    ensures rest_after { scenario_fault (codes "{} {}") ≡ codes "fault 1 not_json /\n" }
    ensures number { scenario_fault (codes "{\"version\":1e400}") ≡ codes "fault 1 not_json /\n" }
{}

/// An unknown key is reported before a missing key, and a missing key before errors in what follows it.
pub fn unknown_and_missing_keys()
    ensures unknown { scenario_fault (codes "{\"versions\":1}") ≡ codes "fault 2 unknown_key /\n" }
    ensures missing { scenario_fault (codes "{\"parts\":0}") ≡ codes "fault 3 missing_key /version\n" }
    ensures image { image_fault (codes "{\"class\":\"net\",\"data\":[],\"text\":[]}")
        ≡ codes "fault 3 missing_key /entries\n" }
    ensures entry { image_fault (codes "{\"class\":\"net\",\"data\":[],\"entries\":{\"init\":0},\"text\":[]}")
        ≡ codes "fault 3 missing_key /entries/send\n" }
    ensures other_entry { image_fault (codes "{\"class\":\"net\",\"data\":[],\"entries\":{\"read\":0},\"text\":[]}")
        ≡ codes "fault 2 unknown_key /entries\n" }
    ensures both_drivers { scenario_fault
        (codes "{\"version\":1,\"parts\":[{\"class\":\"sound\",\"name\":\"s\",\"driver\":{\"asm\":0,\"image\":0}}]}")
        ≡ codes "fault 2 unknown_key /parts/0/driver\n" }
    ensures no_driver { scenario_fault
        (codes "{\"version\":1,\"parts\":[{\"class\":\"sound\",\"name\":\"s\",\"driver\":{}}]}")
        ≡ codes "fault 3 missing_key /parts/0/driver/image\n" }
{}

/// A number counts only if it is written as whole and non-negative.
pub fn wrong_kinds_and_ranges()
    ensures root { scenario_fault (codes "[]") ≡ codes "fault 4 wrong_kind /\n" }
    ensures float { scenario_fault (codes "{\"version\":1.0}") ≡ codes "fault 4 wrong_kind /version\n" }
    ensures minus { scenario_fault (codes "{\"version\":-0}") ≡ codes "fault 4 wrong_kind /version\n" }
    ensures exponent { scenario_fault (codes "{\"version\":1e0}") ≡ codes "fault 4 wrong_kind /version\n" }
    ensures version { scenario_fault (codes "{\"version\":3}") ≡ codes "fault 5 number_range /version\n" }
    ensures null { scenario_fault (codes "{\"version\":1,\"schedule\":null}") ≡ codes "fault 4 wrong_kind /schedule\n" }
    ensures last_value { scenario_fault (codes "{\"version\":1,\"version\":3}")
        ≡ codes "fault 5 number_range /version\n" }
    ensures kind { scenario_fault (codes "{\"version\":1,\"schedule\":{\"kind\":\"random\",\"x\":0}}")
        ≡ codes "fault 4 wrong_kind /schedule/kind\n" }
    ensures start { scenario_fault
        (codes "{\"version\":1,\"schedule\":{\"kind\":\"drawn\",\"start\":18446744073709551616}}")
        ≡ codes "fault 4 wrong_kind /schedule/start\n" }
    ensures pick { scenario_fault (codes "{\"version\":1,\"schedule\":{\"kind\":\"listed\",\"picks\":[0,65535,65536]}}")
        ≡ codes "fault 5 number_range /schedule/picks/2\n" }
    ensures name { scenario_fault (codes "{\"version\":1,\"parts\":[{\"class\":\"sound\",\"name\":\"S\"}]}")
        ≡ codes "fault 4 wrong_kind /parts/0/name\n" }
{}

/// Lists with too few or too many items.
pub fn lengths_of_lists()
    ensures none { scenario_fault (codes "{\"version\":1,\"parts\":[]}") ≡ codes "fault 5 number_range /parts\n" }
    ensures many { scenario_fault (codes "{\"version\":1,\"parts\":[0,0,0,0,0,0,0,0,0]}")
        ≡ codes "fault 6 too_many /parts\n" }
    ensures frame { scenario_fault
        (codes "{\"version\":1,\"parts\":[{\"name\":\"l\",\"class\":\"net\",\"driver\":{\"asm\":\""
        ++ codes ".class net\\n.entry init 0\\n.entry send 0\\n.entry poll 0\\n.entry get 0\\n.entry set 0"
        ++ codes "\"},\"arrivals\":[[1],[]]}]}")
        ≡ codes "fault 5 number_range /parts/0/arrivals/1\n" }
{}

/// Wrong classes, images and assembler texts.
pub fn wrong_drivers()
    ensures class { scenario_fault (codes "{\"version\":1,\"parts\":[{\"class\":\"tape\"}]}")
        ≡ codes "fault 9 bad_class /parts/0/class\n" }
    ensures word { image_fault
        (codes "{\"class\":\"net\",\"data\":[\"0160000F\",\"0160000\"],\"entries\":{},\"text\":[]}")
        ≡ codes "fault 7 bad_image /data/1\n" }
    ensures asm { scenario_fault
        (codes "{\"version\":1,\"parts\":[{\"class\":\"sound\",\"name\":\"s\",\"driver\":{\"asm\":\".class sound\\nLI r1\"}}]}")
        ≡ codes "fault 8 bad_asm 3 line 2 /parts/0/driver/asm\n" }
    ensures other_class { scenario_fault
        (codes "{\"version\":1,\"parts\":[{\"class\":\"net\",\"name\":\"s\",\"driver\":" ++ driver_json sound_image
        ++ codes ",\"arrivals\":0}]}")
        ≡ codes "fault 7 bad_image /parts/0/driver\n" }
{}

/// A thread may have a part's name, but no earlier thread's.
pub fn double_name()
    ensures { scenario_fault (codes "{\"version\":1,\"parts\":[{\"class\":\"sound\",\"name\":\"s\",\"driver\":"
        ++ driver_json sound_image
        ++ codes "}],\"threads\":[{\"name\":\"s\",\"ops\":[]},{\"name\":\"s\",\"ops\":[]}]}")
        ≡ codes "fault 10 double_name /threads/1/name\n" }
{}
