// What an action that pairs its nodes by place names beside the group.
use std::alloc::Global;
use wm_domain::Form;
use wm_flow::{Action, Given, Growth};
use wm_ops::NoMemory;

/// How many variables the groups at the two nodes of an edge have.
#[derive(Clone, Copy)]
pub(crate) struct Groups {
    pub source: u32,
    pub target: u32,
}

/// The ranks of the singles that are named, the arrays, and whether a variable of the group is named.
#[derive(Drop)]
pub(crate) struct Names {
    pub singles: Vec<u32>,
    pub arrays: Vec<u32>,
    pub group: bool,
}

impl Names {
    pub fn new(alloc: Global) -> Names {
        Names {
            singles: Vec::new(alloc),
            arrays: Vec::new(alloc),
            group: false,
        }
    }

    /// Names a variable behind or in a group of so many.
    pub fn name(&mut self, group: u32, variable: u32) -> Result<(), NoMemory> {
        if variable < group {
            self.group = true;
            return Ok(());
        }
        self.singles.push(variable - group)?;
        Ok(())
    }

    pub fn name_form(&mut self, group: u32, form: &Form) -> Result<(), NoMemory> {
        for term in form.terms.items() {
            self.name(group, term.variable)?;
        }
        Ok(())
    }

    fn name_forms(&mut self, group: u32, forms: &[Form]) -> Result<(), NoMemory> {
        for form in forms {
            self.name_form(group, form)?;
        }
        Ok(())
    }

    fn name_all(&mut self, group: u32, variables: &[u32]) -> Result<(), NoMemory> {
        for variable in variables {
            self.name(group, *variable)?;
        }
        Ok(())
    }

    fn name_grown(&mut self, group: u32, growths: &[Growth]) -> Result<(), NoMemory> {
        for growth in growths {
            self.name(group, growth.variable)?;
        }
        Ok(())
    }

    fn name_given(&mut self, group: u32, scalars: &[Given]) -> Result<(), NoMemory> {
        for given in scalars {
            self.name(group, given.target)?;
        }
        Ok(())
    }

    fn name_stored(&mut self, arrays: &[Given]) -> Result<(), NoMemory> {
        for given in arrays {
            self.arrays.push(given.target)?;
        }
        Ok(())
    }
}

/// What an action names. A call and a return do not pair their nodes by place and are told elsewhere.
pub(crate) fn name_action(
    names: &mut Names,
    groups: Groups,
    action: &Action,
) -> Result<(), NoMemory> {
    match action {
        Action::AssignForm { target, form } => {
            names.name(groups.target, *target)?;
            names.name_form(groups.source, form)
        }
        Action::Plain { args, target, .. } => {
            names.name(groups.target, *target)?;
            names.name_forms(groups.source, args)
        }
        Action::Cast { form, target } => {
            names.name(groups.target, *target)?;
            names.name_form(groups.source, form)
        }
        Action::AssignRange { target, .. } => names.name(groups.target, *target),
        Action::SetArray { array, .. } => {
            names.arrays.push(*array)?;
            Ok(())
        }
        Action::Operate {
            args,
            target,
            overflow,
            ..
        } => {
            names.name(groups.target, *target)?;
            names.name(groups.target, *overflow)?;
            names.name_forms(groups.source, args)
        }
        Action::Read { array, target } => {
            names.arrays.push(*array)?;
            names.name(groups.target, *target)
        }
        Action::Write { array, value, .. } => {
            names.arrays.push(*array)?;
            names.name_form(groups.source, value)
        }
        Action::Clear { variables } => names.name_all(groups.target, variables.items()),
        Action::Keep { form, .. } => names.name_form(groups.source, form),
        Action::Test { form, .. } => names.name_form(groups.source, form),
        Action::Count { .. } => Ok(()),
        Action::Enter { .. } => Ok(()),
        Action::Leave { .. } => Ok(()),
        Action::Reset { counters } => names.name_all(groups.target, counters.items()),
        Action::Turn { growths } => names.name_grown(groups.target, growths.items()),
        Action::Tie {
            counter,
            variable,
            ..
        } => {
            names.name(groups.source, *counter)?;
            names.name(groups.source, *variable)
        }
        Action::Inputs { scalars, arrays } => {
            names.name_given(groups.target, scalars.items())?;
            names.name_stored(arrays.items())
        }
    }
}
