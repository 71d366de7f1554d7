//! The step Stage: the due stage of a boot or of a recovery is done.

ghost use Rattle.std.specs.Prelude.{◌≡◌, ◌≤◌, false, [], length, IfSome};
ghost use Rattle.std.specs.List.{list_any};
ghost use Rattle.nook_data.specs.Classes.{defaults_of};
ghost use Rattle.machine_defs.specs.Entries.{is_buffer_of};
ghost use Rattle.part_defs.specs.Stages.{collects, inits, loads_image, mode_after, replays_open, replays_set, resets};
ghost use Rattle.part_defs.specs.Stages.{resumes, stage_done, stage_due, stage_stepped, with_stage};
ghost use Rattle.part_core.specs.Turning.{IsStepOf, stepped_to};
ghost use Rattle.part_core.specs.Staging.{IsReady};

use crate::state::State;
use class_table::{init_address, open_point, set_position};
use nook_data::calls::Op;
use nook_data::limits::SHADOW;
use nook_data::lists::Items;
use nook_data::memory::NoMemory;
use nook_data::memory_map::{DATA_WORDS, TEXT_WORDS};
use nook_data::steps::{Event, Mode, Stage};
use recovery_manager::following;

impl State {
    /// The stage to be done next, if there is one.
    pub fn stage_due(&self) -> Option<Stage>
        ensures { result ≡ stage_due self.now.mode }
    {
        match self.mode {
            Mode::Boot { stage } | Mode::Recovering { stage } => Some(stage),
            Mode::Running | Mode::Dead { collected: true } => None,
            Mode::Dead { collected: false } => Some(Stage::Collect),
        }
    }

    /// Does the stage that is due.
    #[tactic(auto, unfolding(part_defs::specs::Stages::stage_stepped))]
    pub fn stage(&mut self) -> Result<Event, NoMemory>
        requires { IfSome (stage_due self.old.mode) (λ stage. IsReady stage self.old) }
        ensures { IsStepOf (stage_stepped self.old) self.old result self.new }
    {
        match self.stage_due() {
            Some(stage) => self.do_stage(stage),
            None => Ok(self.staged(Stage::Resume)),
        }
    }

    fn do_stage(&mut self, stage: Stage) -> Result<Event, NoMemory>
        requires { IsReady stage self.old }
        ensures { IsStepOf (stage_done stage self.old) self.old result self.new }
    {
        match stage {
            Stage::Stop => self.stop(),
            Stage::Collect => self.collect(),
            Stage::Reset => Ok(self.reset()),
            Stage::Load => self.load(),
            Stage::Init => Ok(self.init()),
            Stage::ReplaySet { key, value } => Ok(self.replay_set(key, value)),
            Stage::ReplayOpen => Ok(self.replay_open()),
            Stage::Resume => Ok(self.resume()),
        }
    }

    /// Ends every context. Within the limit each open call is answered by the shadow or held; past it each is answered
    /// Gone, and the part is dead.
    #[tactic(auto, unfolding(part_defs::specs::Stages::stops, part_defs::specs::Stages::gives_up_part))]
    fn stop(&mut self) -> Result<Event, NoMemory>
        ensures { IsStepOf (stage_done Stage.Stop self.old) self.old result self.new }
    {
        let limit = self.spec.limit;
        let answers = self
            .log
            .stop(self.alloc, &mut self.queue, self.failures, limit)?;
        self.domain.unwind();
        self.mode = if self.failures > limit {
            Mode::Dead { collected: false }
        } else {
            self.mode_after(&Stage::Stop, Mode::Recovering { stage: Stage::Stop })
        };
        Ok(Event::Stage {
            stage: Stage::Stop,
            answers,
            released: Items::new(self.alloc),
        })
    }

    /// Releases everything that the driver held, and ends its loans.
    #[tactic(auto, unfolding(part_defs::specs::Stages::collects))]
    fn collect(&mut self) -> Result<Event, NoMemory>
        ensures { IsStepOf (collects self.old) self.old result self.new }
    {
        let released = self.domain.collect()?;
        self.mode = self.mode_after(&Stage::Collect, self.mode);
        Ok(Event::Stage {
            stage: Stage::Collect,
            answers: Items::new(self.alloc),
            released,
        })
    }

    /// Resets the device to its initial state, except for a disk's blocks.
    #[tactic(auto, unfolding(part_defs::specs::Stages::resets))]
    fn reset(&mut self) -> Event
        requires { self.old.log.defaults ≡ defaults_of self.old.spec.class }
        ensures { resets self.old ≡ stepped_to self.new result }
    {
        self.domain.reset();
        self.mode = self.mode_after(&Stage::Reset, self.mode);
        self.staged(Stage::Reset)
    }

    #[tactic(auto, unfolding(part_defs::specs::Stages::loads_image))]
    fn load(&mut self) -> Result<Event, NoMemory>
        requires text { length self.old.spec.image.text ≤ TEXT_WORDS }
        requires initial { length self.old.spec.image.initial ≤ DATA_WORDS }
        ensures { IsStepOf (loads_image self.old) self.old result self.new }
    {
        self.domain.load(&self.spec.image)?;
        self.mode = self.mode_after(&Stage::Load, self.mode);
        Ok(self.staged(Stage::Load))
    }

    /// The shadow's context enters init.
    #[tactic(auto, unfolding(part_defs::specs::Stages::inits))]
    fn init(&mut self) -> Event
        ensures { inits self.old ≡ stepped_to self.new result }
    {
        self.domain.enter_plain(SHADOW, init_address());
        self.staged(Stage::Init)
    }

    /// The shadow's context enters set, with a word of the record.
    #[tactic(auto, unfolding(part_defs::specs::Stages::replays_set))]
    fn replay_set(&mut self, key: u32, value: u32) -> Event
        requires { list_any (is_buffer_of SHADOW) self.old.domain.entries ≡ false }
        ensures { replays_set key value self.old ≡ stepped_to self.new result }
    {
        let index = set_position(self.spec.class);
        self.domain.enter(SHADOW, index, &Op::Set { key, value });
        self.staged(Stage::ReplaySet { key, value })
    }

    /// The shadow's context enters open.
    #[tactic(auto, unfolding(part_defs::specs::Stages::replays_open))]
    fn replay_open(&mut self) -> Event
        ensures { replays_open self.old ≡ stepped_to self.new result }
    {
        self.domain.enter_plain(SHADOW, open_point());
        self.staged(Stage::ReplayOpen)
    }

    #[tactic(auto, unfolding(part_defs::specs::Stages::resumes))]
    fn resume(&mut self) -> Event
        ensures { resumes self.old ≡ stepped_to self.new result }
    {
        self.mode = self.mode_after(&Stage::Resume, self.mode);
        self.staged(Stage::Resume)
    }

    /// The mode after a stage in this mode: the next stage is due, and after the last one applications are served.
    pub fn mode_after(&self, stage: &Stage, mode: Mode) -> Mode
        ensures { result ≡ mode_after stage.now self.now.log mode }
    {
        match following(stage, self.log.shadow()) {
            Some(next) => with_stage(next, mode),
            None => Mode::Running,
        }
    }

    /// The event of a stage that answers no call and releases nothing.
    fn staged(&self, stage: Stage) -> Event
        ensures { result ≡ Event.Stage stage [] [] }
    {
        Event::Stage {
            stage,
            answers: Items::new(self.alloc),
            released: Items::new(self.alloc),
        }
    }
}

/// The same mode with another stage due. A part that was given up has no stages left.
fn with_stage(stage: Stage, mode: Mode) -> Mode
    ensures { result ≡ with_stage stage mode }
{
    match mode {
        Mode::Boot { .. } => Mode::Boot { stage },
        Mode::Recovering { .. } => Mode::Recovering { stage },
        Mode::Dead { .. } => Mode::Dead { collected: true },
        Mode::Running => Mode::Running,
    }
}
