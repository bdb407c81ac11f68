ghost use Rattle.std.specs.Prelude.{◌≡◌, [], ◌∷◌, length, drop, reverse, List, IfOk, IfSome, IfNone};
ghost use Rattle.std.specs.Result.{OnErr};
ghost use Rattle.lt_scope.specs.Names.{bound_among, bound_in, innermost, binding};
ghost use Rattle.lt_scope.specs.Binders.{names_in, Forgets, ForgetsAll};

use indexmap::IndexMap;
use lt_model::Name;
use std::alloc::{AllocError, Global};
use std::marker::Model;

/// What a name stands for, and how many frames were open when it was declared.
#[derive(Clone, Copy)]
pub struct Standing<T> {
    what: T,
    depth: usize,
}

/// A name in a frame.
#[derive(Drop)]
pub struct Binder<T> {
    name: Name,
    what: T,
    /// What the name stood for before.
    hidden: Option<Standing<T>>,
}

/// The names of one block, file or list of parameters. Contracts see them as a list, the latest first.
#[derive(Drop)]
pub struct Frame<T> {
    /// The latest last.
    binders: Vec<Binder<T>>,
}

impl<T> Model for Frame<T> {
    ghost use Rattle.std.specs.Prelude.{List};
    ghost use Rattle.lt_scope.specs.Names.{Bound};

    ghost Value = { List (Bound T) };

    ghost use Rattle.lt_scope.specs.Binders.{names_in};

    ghost view = { λ f. names_in f.binders.items };
}

/// The names in scope. Contracts see them as a list of frames, the innermost first, each with its latest name first.
#[derive(Drop)]
pub struct Scopes<T> {
    alloc: Global,
    /// The innermost last.
    frames: Vec<Vec<Binder<T>>>,
    /// What each name in scope stands for.
    newest: IndexMap<Vec<u8>, Standing<T>>,
}

impl<T> Model for Scopes<T> {
    ghost use Rattle.std.specs.Prelude.{List};
    ghost use Rattle.lt_scope.specs.Names.{Bound};

    ghost Value = { List (List (Bound T)) };

    ghost use Rattle.lt_scope.specs.Binders.{frames_in, binders_in, Agree};

    ghost view = { λ s. frames_in s.frames.items };

    ghost invariant = { λ s. Agree (binders_in s.frames.items) s.newest };
}

impl<T: Drop> Frame<T> {
    /// No names.
    pub fn new(alloc: Global) -> Frame<T>
        ensures { result ≡ [] }
    {
        Frame {
            binders: Vec::new(alloc),
        }
    }

    /// Takes off the latest name, and gives it with what it stands for.
    pub fn pop(&mut self) -> Option<(Name, T)>
        ensures latest { IfSome result (λ b. self.old ≡ record { name = b.0; what = b.1 } ∷ self.new) }
        ensures none { IfNone result (self.old ≡ []) }
    {
        let Binder {
            name,
            what,
            hidden: _,
        } = self.binders.pop()?;
        Some((name, what))
    }
}

// The names of a frame again.
fn copied<T: Copy + Drop>(alloc: Global, binders: &[Binder<T>]) -> Result<Frame<T>, AllocError>
    ensures { IfOk result (λ frame. frame ≡ names_in binders.now) }
{
    let mut copies = Vec::new(alloc);
    for binder in binders {
        let name = Name::new(alloc, binder.name.as_slice())?;
        copies.push(Binder {
            name,
            what: binder.what,
            hidden: None,
        })?;
    }
    Ok(Frame { binders: copies })
}

// Makes a name stand for what it stood for before.
fn forget<T: Copy + Drop>(newest: &mut IndexMap<Vec<u8>, Standing<T>>, binder: &Binder<T>)
    ensures { Forgets binder.now newest.old newest.new }
{
    match binder.hidden {
        None => {
            let _gone = newest.swap_remove(binder.name.as_slice());
        }
        Some(before) => {
            if let Some(standing) = newest.get_mut(binder.name.as_slice()) {
                *standing = before;
            }
        }
    }
}

// Makes the names of a frame stand for what they stood for before.
fn forget_all<T: Copy + Drop>(newest: &mut IndexMap<Vec<u8>, Standing<T>>, binders: &[Binder<T>])
    ensures { ForgetsAll (reverse binders.now) newest.old newest.new }
{
    let mut left = binders.len();
    'binders: while 0 < left {
        left -= 1;
        forget(newest, &binders[left]);
    }
}

impl<T: Copy + Drop> Scopes<T> {
    /// No frames.
    pub fn new(alloc: Global) -> Scopes<T>
        ensures { result ≡ [] }
    {
        Scopes {
            alloc,
            frames: Vec::new(alloc),
            newest: IndexMap::new(alloc),
        }
    }

    /// How many frames are open.
    pub fn depth(&self) -> usize
        ensures { result ≡ length self.now }
    {
        self.frames.len()
    }

    /// Opens a frame with no names.
    pub fn open(&mut self) -> Result<(), AllocError>
        ensures opened { IfOk result (λ _. self.new ≡ [] ∷ self.old) }
        ensures same { OnErr result (self.new ≡ self.old) }
    {
        match self.frames.push(Vec::new(self.alloc)) {
            Ok(()) => Ok(()),
            Err(_) => Err(AllocError),
        }
    }

    /// Opens a frame with these names.
    pub fn open_with(&mut self, frame: Frame<T>) -> Result<(), AllocError>
        ensures opened { IfOk result (λ _. self.new ≡ frame ∷ self.old) }
        ensures same { OnErr result (self.new ≡ self.old) }
    {
        self.open()?;
        for binder in &frame.binders {
            match self.bind(binder.name.as_slice(), binder.what) {
                Ok(()) => {}
                Err(error) => {
                    let _undone = self.close();
                    return Err(error);
                }
            }
        }
        Ok(())
    }

    /// Takes off the innermost frame, and gives its names; none where no frame is open.
    pub fn close(&mut self) -> Frame<T>
        ensures names { result ≡ innermost self.old }
        ensures outer { self.new ≡ drop 1 self.old }
    {
        let Some(binders) = self.frames.pop() else {
            return Frame::new(self.alloc);
        };
        forget_all(&mut self.newest, &binders);
        Frame { binders }
    }

    /// A copy of the innermost frame; no names where no frame is open.
    pub fn innermost(&self, alloc: Global) -> Result<Frame<T>, AllocError>
        ensures { IfOk result (λ frame. frame ≡ innermost self.now) }
    {
        match self.frames.last() {
            None => Ok(Frame::new(alloc)),
            Some(binders) => copied(alloc, binders),
        }
    }

    /// Declares a name in the innermost frame, if one is open.
    pub fn bind(&mut self, name: &[u8], what: T) -> Result<(), AllocError>
        ensures bound { IfOk result (λ _. self.new ≡ binding name.now what self.old) }
        ensures same { OnErr result (self.new ≡ self.old) }
    {
        let depth = self.frames.len();
        if depth == 0 {
            return Ok(());
        }
        let key = Vec::from_slice(self.alloc, name)?;
        let name = Name::new(self.alloc, name)?;
        let hidden = self.newest.get(key.as_slice()).copied();
        let innermost = &mut self.frames[depth - 1];
        innermost.push(Binder { name, what, hidden })?;
        match self.newest.insert(key, Standing { what, depth }) {
            Ok(_) => {}
            Err(_) => {
                let innermost = &mut self.frames[depth - 1];
                let _undone = innermost.pop();
                return Err(AllocError);
            }
        }
        Ok(())
    }

    /// What a name stands for, if it is in scope: in the innermost frame that has it, the latest of that name.
    pub fn find(&self, name: &[u8]) -> Option<T>
        ensures { result ≡ bound_in name.now self.now }
    {
        let standing = self.newest.get(name)?;
        Some(standing.what)
    }

    /// What the innermost frame declares a name as.
    pub fn find_here(&self, name: &[u8]) -> Option<T>
        ensures { result ≡ bound_among name.now (innermost self.now) }
    {
        let standing = self.newest.get(name)?;
        if standing.depth == self.frames.len() {
            Some(standing.what)
        } else {
            None
        }
    }
}
