ghost use Rattle.std.specs.Prelude.{◌≡◌};
ghost use Rattle.std.specs.List.{find};
ghost use Rattle.ad_value.specs.Names.{same_name};
ghost use Rattle.ad_func.specs.Function.{function_name, functions_of_length, function_named};

/// What an `is..` function asks for.
#[derive(Clone, Copy)]
pub enum ValueKind {
    Undefined,
    Error,
    Bool,
    Int,
    Str,
    List,
}

/// A function of the ClassAd language.
#[derive(Clone, Copy)]
pub enum Function {
    Is(ValueKind),
    IfThenElse,
    Int,
    String,
    Strcat,
    ToUpper,
    ToLower,
    Substr,
    Size,
    Member,
    StringListMember,
    StringListSize,
    Strcmp,
    Stricmp,
    Time,
}

impl Function {
    fn name(self) -> &'static str
        ensures { result.now ≡ function_name self }
    {
        match self {
            Function::Is(ValueKind::Undefined) => "isUndefined",
            Function::Is(ValueKind::Error) => "isError",
            Function::Is(ValueKind::Str) => "isString",
            Function::Is(ValueKind::Int) => "isInteger",
            Function::Is(ValueKind::Bool) => "isBoolean",
            Function::Is(ValueKind::List) => "isList",
            Function::IfThenElse => "ifThenElse",
            Function::Int => "int",
            Function::String => "string",
            Function::Strcat => "strcat",
            Function::ToUpper => "toUpper",
            Function::ToLower => "toLower",
            Function::Substr => "substr",
            Function::Size => "size",
            Function::Member => "member",
            Function::StringListMember => "stringListMember",
            Function::StringListSize => "stringListSize",
            Function::Strcmp => "strcmp",
            Function::Stricmp => "stricmp",
            Function::Time => "time",
        }
    }

    fn is_named(self, name: &str) -> bool
        ensures { result ≡ same_name (function_name self) name.now }
    {
        self.name().eq_ignore_ascii_case(name)
    }
}

// The functions whose names have so many bytes.
fn functions_of_length(length: usize) -> &'static [Function]
    ensures { result.now ≡ functions_of_length length }
{
    match length {
        3 => &[Function::Int],
        4 => &[Function::Size, Function::Time],
        6 => &[
            Function::Is(ValueKind::List),
            Function::String,
            Function::Strcat,
            Function::Substr,
            Function::Member,
            Function::Strcmp,
        ],
        7 => &[
            Function::Is(ValueKind::Error),
            Function::ToUpper,
            Function::ToLower,
            Function::Stricmp,
        ],
        8 => &[Function::Is(ValueKind::Str)],
        9 => &[Function::Is(ValueKind::Int), Function::Is(ValueKind::Bool)],
        10 => &[Function::IfThenElse],
        11 => &[Function::Is(ValueKind::Undefined)],
        14 => &[Function::StringListSize],
        16 => &[Function::StringListMember],
        _ => &[],
    }
}

fn named_among(functions: &[Function], name: &str) -> Option<Function>
    ensures { result ≡ find (λ f. same_name (function_name f) name.now) functions.now }
{
    functions
        .iter()
        .copied()
        .find(|function| function.is_named(name))
}

/// The function of that name, without ASCII case. Computes in O(bytes of the name): only functions
/// with names of its length are looked at.
pub fn function_named(name: &str) -> Option<Function>
    ensures { result ≡ function_named name.now }
{
    named_among(functions_of_length(name.len()), name)
}
