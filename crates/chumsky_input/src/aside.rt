//! What a run sets aside while something runs by itself, and brings back after it.
ghost use Rattle.std.specs.Prelude.{◌≡◌, None, option_map, map, length};
ghost use Rattle.chumsky_input.specs.Held.{held, located};
ghost use Rattle.chumsky_input.specs.Aside.{without_errors};
ghost use Rattle.chumsky_input.specs.OneCall.{BringsBack, EmitsBefore, KeepsBefore, HandsOutLast};

use crate::error::Error;
use crate::extra::ParserExtra;
use crate::input::Input;
use crate::input_ref::{InputRef, Located};
use crate::inspector::Inspector;
use crate::stop::{Failure, Fault, Stop};
use std::alloc::AllocError;

/// The error that a run kept and those that it emitted, while something runs that is to find none.
#[derive(Drop)]
pub struct Aside<E> {
    pub kept: Option<Located<E>>,
    pub emitted: Vec<E>,
}

impl<'src, 'p, I: Input<'src>, E: ParserExtra<I>> InputRef<'src, 'p, I, E> {
    /// Takes out the error that is kept.
    #[inline]
    pub fn take_kept(&mut self) -> Option<Located<E::Error>>
        ensures kept { option_map (located E.Error.seen) result ≡ (held I.Input E.Error.Error E.State.Inspector self.old).kept }
        ensures leaves { held I.Input E.Error.Error E.State.Inspector self.new ≡ record (held I.Input E.Error.Error E.State.Inspector self.old) { kept = None } }
        ensures lent { self.new.state.ghost_name ≡ self.old.state.ghost_name }
    {
        self.kept.take()
    }

    /// Keeps this error, or none, in place of the one that is kept.
    #[inline(always)]
    pub fn put_kept(&mut self, kept: Option<Located<E::Error>>)
        ensures { self.new ≡ record self.old { kept = kept } }
    {
        self.kept = kept;
    }

    /// Puts an older error before the one that is kept: they count as two events, in this order. A refused merge keeps
    /// neither.
    #[inline]
    pub fn keep_before(&mut self, older: Option<Located<E::Error>>) -> Result<(), AllocError>
        ensures keeps { KeepsBefore I.Input E.Error.Error E.State.Inspector older self.old self.new result }
        ensures lent { self.new.state.ghost_name ≡ self.old.state.ghost_name }
    {
        match self.kept.take() {
            None => {
                self.kept = older;
                Ok(())
            }
            Some(kept) => {
                self.kept = older;
                match self.add_event(kept.place, kept.error) {
                    Fault::Fail => Ok(()),
                    Fault::Stop(_) => Err(AllocError),
                }
            }
        }
    }

    /// Takes out the last error of a failure: the one that is kept, or where there is none that of an empty expectation.
    /// An older one is kept in its place. A refusal is a stop of the run, and the older one is lost.
    #[inline]
    pub fn hand_out(&mut self, older: Option<Located<E::Error>>) -> Failure<E::Error>
        ensures hands { HandsOutLast I.Input E.Error.Error E.State.Inspector older self.old self.new result }
        ensures lent { self.new.state.ghost_name ≡ self.old.state.ghost_name }
    {
        match self.last_error() {
            Ok(error) => {
                self.kept = older;
                Failure::Error(error)
            }
            Err(_) => self.stop(Stop::Memory),
        }
    }

    /// Puts older errors before those that are emitted. A refusal changes nothing but what is emitted.
    fn emit_before(&mut self, older: Vec<E::Error>) -> Result<(), AllocError>
        ensures emits { EmitsBefore I.Input E.Error.Error E.State.Inspector older self.old self.new result }
        ensures lent { self.new.state.ghost_name ≡ self.old.state.ghost_name }
    {
        if older.is_empty() {
            return Ok(());
        }
        let mut newer = std::mem::replace(&mut self.emitted, older);
        if newer.is_empty() {
            return Ok(());
        }
        self.emitted.append(&mut newer)
    }

    /// Takes out the error that is kept and those that are emitted.
    #[inline]
    pub fn set_aside(&mut self) -> Aside<E::Error>
        ensures kept { option_map (located E.Error.seen) result.kept ≡ (held I.Input E.Error.Error E.State.Inspector self.old).kept }
        ensures emitted { map E.Error.seen result.emitted.items ≡ (held I.Input E.Error.Error E.State.Inspector self.old).emitted }
        ensures leaves { held I.Input E.Error.Error E.State.Inspector self.new ≡ without_errors (held I.Input E.Error.Error E.State.Inspector self.old) }
        ensures lent { self.new.state.ghost_name ≡ self.old.state.ghost_name }
    {
        let kept = self.kept.take();
        let emitted = std::mem::replace(&mut self.emitted, Vec::new(self.alloc));
        Aside { kept, emitted }
    }

    /// Holds these errors in place of those that it held.
    #[inline(always)]
    pub fn put_errors(&mut self, errors: Aside<E::Error>)
        ensures { self.new ≡ record self.old { kept = errors.kept; emitted = errors.emitted } }
    {
        self.kept = errors.kept;
        self.emitted = errors.emitted;
    }

    /// How many errors it has emitted.
    #[inline]
    pub fn emitted_count(&self) -> usize
        ensures { result ≡ length self.now.emitted.items }
    {
        self.emitted.len()
    }

    /// Brings back what was set aside, before what is held now. A refusal changes nothing but what is kept and emitted.
    #[inline]
    pub fn bring_back(&mut self, older: Aside<E::Error>) -> Result<(), AllocError>
        ensures back { BringsBack I.Input E.Error.Error E.State.Inspector older self.old self.new result }
        ensures lent { self.new.state.ghost_name ≡ self.old.state.ghost_name }
    {
        self.emit_before(older.emitted)?;
        self.keep_before(older.kept)?;
        Ok(())
    }
}
