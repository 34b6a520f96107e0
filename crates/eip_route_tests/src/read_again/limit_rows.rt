// Files that lie at a limit. In a row `<N*TEXT>` stands for so many times this text.

/// Files behind a limit, or before one with another fault, with their first fault.
pub const LIMITS: &str = r#"[]<1048575* > => $ TooLong
<1048576*x> => $ NotJson
<1048577*x> => $ TooLong
<127*[><127*]> => $[0] WrongKind
<128*[><128*]> => $ NotJson
<127*{"a":>1<127*}> => $ WrongKind
<128*{"a":>1<128*}> => $ NotJson
<63*[{"from":>[]<63*}]> => $[0].from WrongKind
<64*[{"from":>1<64*}]> => $ NotJson
[{"from":{"uri":"stream:in","steps":[{"setBody":{"constant":1<308*0>}}]}}] => $[0].from.steps[0].setBody.constant WrongKind
[{"from":{"uri":"stream:in","steps":[{"setBody":{"constant":1<309*0>}}]}}] => $ NotJson
[{"from":{"uri":"stream:in","steps":[{"setBody":{"constant":0.<400*3>}}]}}] => $[0].from.steps[0].setBody.constant WrongKind
[{"<70000*k>":1}] => $[0] UnknownKey <70000*k>
[{"from":{"uri":"stream:in","steps":[{"<70000*é>":1}]}}] => $[0].from.steps[0] UnknownStep <70000*é>
[{"from":{"uri":"seda:q","parameters":{"<70000*k>":[]}}}] => $[0].from.parameters.<70000*k> WrongKind
[{"from":{"uri":"seda:q","parameters":{"<70000*k>":1}}}] => $[0].from.uri UnknownOption <70000*k>
[1<200*,{"from":1}><57*,{"route":1}>] => $ TooManyRoutes
[1<200*,{"from":1}><56*,{"route":1}>] => $[0] WrongKind
[1<300*,{"from":1,"id":1}>] => $[0] WrongKind
[{"from":{"uri":"stream:in","steps":[{"filter":{"simple":"${body} regex '<300*(>a<300*)>'","steps":[]}}]}}] => $[0].from.steps[0].filter.simple BadPattern 14
[{"from":{"uri":"stream:in","steps":[{"filter":{"simple":"${body} regex 'a<3*{1000}>'","steps":[]}}]}}] => $[0].from.steps[0].filter.simple PatternTooLarge 14
[{"onException":{"exception":["E"],"steps":[<16*{"filter":{"constant":true,"steps":[><16*]}}>]}}] => $[0].onException<16*.steps[0].filter>.steps TooNested
[{"route":{"from":{"uri":"stream:in"},"steps":[<16*{"filter":{"constant":true,"steps":[><16*]}}>]}}] => $[0].route<16*.steps[0].filter>.steps TooNested
[{"from":{"uri":"stream:in","steps":[<15*{"filter":{"constant":true,"steps":[>{"filter":{"constant":true,"steps":[]}}<15*]}}>]}}] => $[0].from<15*.steps[0].filter>.steps[0].filter.steps TooNested
[{"from":{"uri":"stream:in","steps":[<15*{"filter":{"constant":true,"steps":[>{"filter":{"constant":true,"steps":[{"shout":1}]}}<15*]}}>]}}] => $[0].from<15*.steps[0].filter>.steps[0].filter.steps TooNested
[{"from":{"uri":"stream:in","steps":[<15*{"filter":{"constant":true,"steps":[>{"filter":{"constant":true,"steps":null}}<15*]}}>]}}] => $[0].from<15*.steps[0].filter>.steps[0].filter.steps WrongKind
[{"from":{"uri":"stream:in","steps":[<15*{"filter":{"constant":true,"steps":[>{"filter":{"constant":"x","steps":[]}}<15*]}}>]}}] => $[0].from<15*.steps[0].filter>.steps[0].filter.constant BadValue
[{"from":{"uri":"stream:in","steps":[<15*{"filter":{"constant":true,"steps":[>{"filter":{"steps":[]}}<15*]}}>]}}] => $[0].from<15*.steps[0].filter>.steps[0].filter MissingKey expression
[{"from":{"uri":"stream:in","steps":[<15*{"filter":{"constant":true,"steps":[>{"choice":{"when":[{"constant":true,"steps":[]}]}}<15*]}}>]}}] => $[0].from<15*.steps[0].filter>.steps[0].choice.when[0].steps TooNested
[{"from":{"uri":"stream:in","steps":[<15*{"filter":{"constant":true,"steps":[>{"choice":{"when":[{"constant":true,"steps":[]}],"otherwise":{"steps":[]}}}<15*]}}>]}}] => $[0].from<15*.steps[0].filter>.steps[0].choice.otherwise.steps TooNested
[{"from":{"uri":"stream:in","steps":[<15*{"filter":{"constant":true,"steps":[>{"choice":{"when":[{"steps":[]}]}}<15*]}}>]}}] => $[0].from<15*.steps[0].filter>.steps[0].choice.when[0] MissingKey expression
[{"from":{"uri":"stream:in","steps":[<15*{"filter":{"constant":true,"steps":[>{"split":{"jsonpath":"$[*]","steps":[]}}<15*]}}>]}}] => $[0].from<15*.steps[0].filter>.steps[0].split.steps TooNested
[{"from":{"uri":"stream:in","steps":[<15*{"filter":{"constant":true,"steps":[>{"split":{"tokenize":"","steps":[]}}<15*]}}>]}}] => $[0].from<15*.steps[0].filter>.steps[0].split.steps TooNested
[{"from":{"uri":"stream:in","steps":[<15*{"filter":{"constant":true,"steps":[>{"multicast":{"steps":[{"to":"log:a"}]}}<15*]}}>]}}] => $[0].from<15*.steps[0].filter>.steps[0].multicast.steps TooNested
[{"from":{"uri":"stream:in","steps":[<15*{"filter":{"constant":true,"steps":[>{"multicast":{"steps":[{"shout":1}]}}<15*]}}>]}}] => $[0].from<15*.steps[0].filter>.steps[0].multicast.steps TooNested
[{"from":{"uri":"stream:in","steps":[<15*{"filter":{"constant":true,"steps":[>{"multicast":{"steps":[]}}<15*]}}>]}}] => $[0].from<15*.steps[0].filter>.steps[0].multicast.steps BadValue
[{"from":{"uri":"stream:in","steps":[<15*{"filter":{"constant":true,"steps":[>{"multicast":{"steps":1}}<15*]}}>]}}] => $[0].from<15*.steps[0].filter>.steps[0].multicast.steps WrongKind
[{"from":{"uri":"stream:in","steps":[<15*{"filter":{"constant":true,"steps":[>{"aggregate":{"correlationExpression":{"header":"h"},"completionSize":2,"steps":[]}}<15*]}}>]}}] => $[0].from<15*.steps[0].filter>.steps[0].aggregate.steps TooNested
[{"from":{"uri":"stream:in","steps":[<15*{"filter":{"constant":true,"steps":[>{"aggregate":{"correlationExpression":{"header":"h"},"steps":[]}}<15*]}}>]}}] => $[0].from<15*.steps[0].filter>.steps[0].aggregate.steps TooNested
[{"from":{"uri":"stream:in","steps":[<15*{"filter":{"constant":true,"steps":[>{"idempotentConsumer":{"header":"h","steps":[]}}<15*]}}>]}}] => $[0].from<15*.steps[0].filter>.steps[0].idempotentConsumer.steps TooNested
[{"from":{"uri":"stream:in","steps":[<15*{"filter":{"constant":true,"steps":[>{"idempotent-consumer":{"header":"h","steps":[]}}<15*]}}>]}}] => $[0].from<15*.steps[0].filter>.steps[0].idempotent-consumer.steps TooNested
[{"from":{"uri":"stream:in","steps":[<15*{"filter":{"constant":true,"steps":[>{"shout":1}<15*]}}>]}}] => $[0].from<15*.steps[0].filter>.steps[0] UnknownStep shout
[{"from":{"uri":"stream:in","steps":[<14*{"filter":{"constant":true,"steps":[>{"multicast":{"steps":[{"to":"log:a"},{"filter":{"constant":true,"steps":[]}}]}}<14*]}}>]}}] => $[0].from<14*.steps[0].filter>.steps[0].multicast.steps[1].filter.steps TooNested
[{"from":{"uri":"stream:in","steps":[<14*{"filter":{"constant":true,"steps":[>{"multicast":{"steps":[{"multicast":{"steps":[{"to":"log:a"}]}}]}}<14*]}}>]}}] => $[0].from<14*.steps[0].filter>.steps[0].multicast.steps[0].multicast.steps TooNested
[{"from":{"uri":"stream:in","steps":[<14*{"filter":{"constant":true,"steps":[>{"filter":{"constant":true,"steps":[{"split":{"jsonpath":"$[*]","steps":[]}}]}}<14*]}}>]}}] => $[0].from<14*.steps[0].filter>.steps[0].filter.steps[0].split.steps TooNested
[{"from":{"uri":"stream:in","steps":[<14*{"filter":{"constant":true,"steps":[>{"choice":{"when":[{"constant":true,"steps":[]},{"constant":true,"steps":[{"filter":{"constant":true,"steps":[]}}]}]}}<14*]}}>]}}] => $[0].from<14*.steps[0].filter>.steps[0].choice.when[1].steps[0].filter.steps TooNested
[{"from":{"uri":"stream:in","steps":[<14*{"filter":{"constant":true,"steps":[>{"aggregate":{"correlationExpression":{"header":"h"},"completionSize":2,"steps":[{"shout":1}]}}<14*]}}>]}}] => $[0].from<14*.steps[0].filter>.steps[0].aggregate.steps[0] UnknownStep shout
[{"from":{"uri":"stream:in","steps":[<14*{"filter":{"constant":true,"steps":[>{"resequence":{"header":"h","steps":[]}}<14*]}}>]}}] => $[0].from<14*.steps[0].filter>.steps[0].resequence.steps TooNested
[{"from":{"uri":"stream:in","steps":[<13*{"filter":{"constant":true,"steps":[>{"resequence":{"header":"h","steps":[{"filter":{"constant":true,"steps":[]}}]}}<13*]}}>]}}] => $[0].from<13*.steps[0].filter>.steps[0].resequence.steps[0].filter.steps TooNested
[{"from":{"uri":"stream:in","steps":[<14*{"filter":{"constant":true,"steps":[>{"resequence":{"header":"","steps":[]}}<14*]}}>]}}] => $[0].from<14*.steps[0].filter>.steps[0].resequence.header BadName
[{"from":{"uri":"stream:in","steps":[<15*{"filter":{"constant":true,"steps":[>{"doTry":{"steps":[]}}<15*]}}>]}}] => $[0].from<15*.steps[0].filter>.steps[0].doTry.steps TooNested
[{"from":{"uri":"stream:in","steps":[<15*{"filter":{"constant":true,"steps":[>{"doTry":{"steps":[],"doFinally":{"steps":[]}}}<15*]}}>]}}] => $[0].from<15*.steps[0].filter>.steps[0].doTry.doFinally.steps TooNested
[{"from":{"uri":"stream:in","steps":[<15*{"filter":{"constant":true,"steps":[>{"doTry":{"steps":[],"doCatch":[{"exception":"E","steps":[]}],"doFinally":{"steps":[]}}}<15*]}}>]}}] => $[0].from<15*.steps[0].filter>.steps[0].doTry.doCatch[0].steps TooNested
[{"from":{"uri":"stream:in","steps":[{"resequence":{"header":"<65*h>","steps":[]}}]}}] => $[0].from.steps[0].resequence.header BadName"#;

/// Files within the limits with their canonical text.
pub const WITHIN: &str = r#"[]<1048574* > => []
[{"onException":{"exception":"E"}}<256*,{"onException":{"exception":"E"}}>] => [{"onException":{"exception":["E"]}}<256*,{"onException":{"exception":["E"]}}>]
[{"from":{"uri":"stream:in","steps":[{"setBody":{"constant":"<70000*é>"}}]}}] => [{"route":{"from":{"steps":[{"setBody":{"constant":"<70000*é>"}}],"uri":"stream:in"},"id":"route1"}}]
[{"onException":{"exception":["E"],"steps":[<15*{"filter":{"constant":true,"steps":[><15*]}}>]}}] => [{"onException":{"exception":["E"],"steps":[<15*{"filter":{"constant":true,"steps":[><15*]}}>]}}]
[{"route":{"from":{"uri":"stream:in"},"steps":[<15*{"filter":{"constant":true,"steps":[><15*]}}>]}}] => [{"route":{"from":{"steps":[<15*{"filter":{"constant":true,"steps":[><15*]}}>],"uri":"stream:in"},"id":"route1"}}]
[{"from":{"uri":"stream:in","steps":[<15*{"filter":{"constant":true,"steps":[>{"to":"log:a"}<15*]}}>]}}] => [{"route":{"from":{"steps":[<15*{"filter":{"constant":true,"steps":[>{"to":"log:a"}<15*]}}>],"uri":"stream:in"},"id":"route1"}}]
[{"from":{"uri":"stream:in","steps":[<15*{"filter":{"constant":true,"steps":[>{"recipientList":{"header":"h"}}<15*]}}>]}}] => [{"route":{"from":{"steps":[<15*{"filter":{"constant":true,"steps":[>{"recipientList":{"header":"h"}}<15*]}}>],"uri":"stream:in"},"id":"route1"}}]
[{"from":{"uri":"stream:in","steps":[<14*{"filter":{"constant":true,"steps":[>{"multicast":{"steps":[{"to":"log:a"},{"log":"m"}]}}<14*]}}>]}}] => [{"route":{"from":{"steps":[<14*{"filter":{"constant":true,"steps":[>{"multicast":{"steps":[{"to":"log:a"},{"log":"m"}]}}<14*]}}>],"uri":"stream:in"},"id":"route1"}}]
[{"from":{"uri":"stream:in","steps":[<14*{"filter":{"constant":true,"steps":[>{"choice":{"otherwise":{"steps":[]},"when":[{"constant":true,"steps":[]}]}}<14*]}}>]}}] => [{"route":{"from":{"steps":[<14*{"filter":{"constant":true,"steps":[>{"choice":{"otherwise":{"steps":[]},"when":[{"constant":true,"steps":[]}]}}<14*]}}>],"uri":"stream:in"},"id":"route1"}}]
[{"from":{"uri":"stream:in","steps":[<13*{"filter":{"constant":true,"steps":[>{"resequence":{"header":"h","steps":[{"log":"a"}]}}<13*]}}>]}}] => [{"route":{"from":{"steps":[<13*{"filter":{"constant":true,"steps":[>{"resequence":{"header":"h","steps":[{"log":"a"}]}}<13*]}}>],"uri":"stream:in"},"id":"route1"}}]
[{"from":{"uri":"stream:in","steps":[<14*{"filter":{"constant":true,"steps":[>{"doTry":{"doCatch":[{"exception":["E"],"steps":[{"log":"a"}]}],"doFinally":{"steps":[{"log":"b"}]},"steps":[{"log":"c"}]}}<14*]}}>]}}] => [{"route":{"from":{"steps":[<14*{"filter":{"constant":true,"steps":[>{"doTry":{"doCatch":[{"exception":["E"],"steps":[{"log":"a"}]}],"doFinally":{"steps":[{"log":"b"}]},"steps":[{"log":"c"}]}}<14*]}}>],"uri":"stream:in"},"id":"route1"}}]
[{"from":{"uri":"stream:in","steps":[{"filter":{"simple":"${body} regex '<200*x>'","steps":[]}}]}}] => [{"route":{"from":{"steps":[{"filter":{"simple":"${body} regex '<200*x>'","steps":[]}}],"uri":"stream:in"},"id":"route1"}}]"#;

/// Files whose canonical text, with its line feed, fills a route file but for a few bytes: a multicast of 95,316 branches,
/// a choice of 38,832 cases, 27,592 filters.
pub const LARGE: &str =
    r#"[{"from":{"uri":"direct:a","steps":[{"multicast":{"steps":[{"log":""}<95315*,{"log":""}>]}}]}}] => [{"route":{"from":{"steps":[{"multicast":{"steps":[{"log":""}<95315*,{"log":""}>]}}],"uri":"direct:a"},"id":"route1"}}]
[{"from":{"uri":"direct:a","steps":[{"choice":{"when":[{"ref":"empty","steps":[]}<38831*,{"ref":"empty","steps":[]}>]}}]}}] => [{"route":{"from":{"steps":[{"choice":{"when":[{"ref":"empty","steps":[]}<38831*,{"ref":"empty","steps":[]}>]}}],"uri":"direct:a"},"id":"route1"}}]
[{"from":{"uri":"direct:a","steps":[{"filter":{"ref":"empty","steps":[]}}<27591*,{"filter":{"ref":"empty","steps":[]}}>]}}] => [{"route":{"from":{"steps":[{"filter":{"ref":"empty","steps":[]}}<27591*,{"filter":{"ref":"empty","steps":[]}}>],"uri":"direct:a"},"id":"route1"}}]"#;

/// Files that `serde_json` doesn't read. The first is empty.
pub const NOT_JSON: &str = r#"
 
[
]
[]]
[] x
[1,]
[,1]
{"a":1,}
[{"from":}]
[{from:{}}]
[{'from':{}}]
[01]
[-01]
[+1]
[.5]
[1.]
[1e]
[-]
[0x1]
[1e400]
[NaN]
[nul]
[True]
["a]
["\x"]
["\u12"]
["\ud800"]
["\udc00"]
["\ud800\u0041"]
["\ud83d\ud83d"]
[] // end
[/* */]
[1 2]
[{"a" 1}]
{} {}"#;
