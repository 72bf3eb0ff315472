// The names of a source: constants, labels, and local labels, which are numbers and may stand several times.
use crate::fault::Unread;
use std::alloc::Global;
use std::collections::BTreeMap;

// What a name stands for: a number, or a label by the number of its symbol.
#[derive(Clone, Copy)]
pub(crate) enum Meaning {
    Constant(u32),
    Label(usize),
}

// A local label: the symbol of the last one before here, and that of the next one, where it was referred to already.
#[derive(Clone, Copy, Default)]
struct Local {
    before: Option<usize>,
    after: Option<usize>,
}

// A place at which a label is referred to.
#[derive(Clone, Copy)]
pub(crate) struct Mention {
    pub symbol: usize,
    pub line: usize,
    pub column: usize,
}

#[derive(Drop)]
pub(crate) struct Symbols<'a> {
    names: BTreeMap<&'a [u8], Meaning>,
    locals: BTreeMap<u32, Local>,
    // of each symbol, whether its label stands somewhere
    defined: Vec<bool>,
    pub mentions: Vec<Mention>,
}

impl<'a> Symbols<'a> {
    pub(crate) fn new(heap: Global) -> Self {
        Symbols {
            names: BTreeMap::new(heap),
            locals: BTreeMap::new(heap),
            defined: Vec::new(heap),
            mentions: Vec::new(heap),
        }
    }

    // How many symbols there are.
    pub(crate) fn count(&self) -> usize {
        self.defined.len()
    }

    pub(crate) fn is_defined(&self, symbol: usize) -> bool {
        self.defined.get(symbol).copied().unwrap_or(false)
    }

    fn new_symbol(&mut self) -> Result<usize, Unread> {
        let symbol = self.defined.len();
        self.defined.push(false)?;
        Ok(symbol)
    }

    fn define(&mut self, symbol: usize) {
        if let Some(defined) = self.defined.get_mut(symbol) {
            *defined = true;
        }
    }

    pub(crate) fn meaning_of(&self, name: &'a [u8]) -> Option<Meaning> {
        self.names.get(&name).copied()
    }

    // What a name stands for; one that is new will be a label.
    pub(crate) fn refer(&mut self, name: &'a [u8]) -> Result<Meaning, Unread> {
        if let Some(meaning) = self.meaning_of(name) {
            return Ok(meaning);
        }
        let meaning = Meaning::Label(self.new_symbol()?);
        self.names.insert(name, meaning)?;
        Ok(meaning)
    }

    // A label of this name stands here; none where the name is taken.
    pub(crate) fn define_label(&mut self, name: &'a [u8]) -> Result<Option<usize>, Unread> {
        match self.refer(name)? {
            Meaning::Label(symbol) if !self.is_defined(symbol) => {
                self.define(symbol);
                Ok(Some(symbol))
            }
            _ => Ok(None),
        }
    }

    // A name is a number from here on; false where it is a label.
    pub(crate) fn define_constant(&mut self, name: &'a [u8], value: u32) -> Result<bool, Unread> {
        if let Some(Meaning::Label(_)) = self.meaning_of(name) {
            return Ok(false);
        }
        self.names.insert(name, Meaning::Constant(value))?;
        Ok(true)
    }

    fn local(&self, number: u32) -> Local {
        self.locals.get(&number).copied().unwrap_or_default()
    }

    // The symbol of the last local label of this number before here.
    pub(crate) fn local_before(&self, number: u32) -> Option<usize> {
        self.local(number).before
    }

    // The symbol of the next local label of this number.
    pub(crate) fn local_after(&mut self, number: u32) -> Result<usize, Unread> {
        let local = self.local(number);
        if let Some(symbol) = local.after {
            return Ok(symbol);
        }
        let symbol = self.new_symbol()?;
        let after = Some(symbol);
        self.locals.insert(number, Local { after, ..local })?;
        Ok(symbol)
    }

    // A local label of this number stands here.
    pub(crate) fn define_local(&mut self, number: u32) -> Result<usize, Unread> {
        let symbol = self.local_after(number)?;
        self.locals.insert(
            number,
            Local {
                before: Some(symbol),
                after: None,
            },
        )?;
        self.define(symbol);
        Ok(symbol)
    }

    pub(crate) fn mention(&mut self, mention: Mention) -> Result<(), Unread> {
        self.mentions.push(mention)?;
        Ok(())
    }
}
